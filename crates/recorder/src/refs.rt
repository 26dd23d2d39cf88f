//! Keys, values, actions and answers whose texts a history keeps.
ghost use Rattle.std.specs.Prelude.{◌≡◌, true, None, Some, IfNone, IfSome, IfOk, IsTrue, ◌↔◌, bytes_eq};
ghost use Rattle.std.specs.Cmp.{partial_equiv_from_equiv, on_per};
ghost use Rattle.std.specs.Cmp.Lexicographic.{nat_list_eq_equiv};
ghost use Rattle.std.specs.Ordering.{on};
ghost use Rattle.tag.proofs.Equality.{option_per};
ghost use Rattle.tag.specs.Names.{is_key, is_value};
ghost use Rattle.recorder.specs.Shown.{written_of, answered_of};

use std::alloc::Global;
use std::marker::Model;
use tag::{Action, Key, Memory, NameError, Returned, Value};

/// A key that a history keeps.
#[derive(Debug, Drop)]
pub struct KeyRef<'h> {
    key: &'h Key,
}

impl<'h> Model for KeyRef<'h> {
    ghost use Rattle.std.specs.Prelude.{List, ℕ};

    ghost Value = { List ℕ };

    ghost view = { λ k. k.key.now };
}

impl<'h> KeyRef<'h> {
    /// That key.
    pub fn of(key: &'h Key) -> KeyRef<'h>
        ensures { result ≡ key.now }
    {
        KeyRef { key }
    }

    /// The key.
    pub fn key(&self) -> &'h Key
        ensures { result.now ≡ self.now }
    {
        self.key
    }

    /// The text.
    pub fn as_str(&self) -> &'h str
        ensures text { result.now ≡ self.now }
        ensures lawful { is_key self.now ≡ true }
    {
        self.key.as_str()
    }
}

impl<'h> PartialEq for KeyRef<'h> {
    ghost eq = { bytes_eq };

    ghost laws = { partial_equiv_from_equiv nat_list_eq_equiv };

    fn eq(&self, other: &KeyRef<'h>) -> bool {
        self.key == other.key
    }
}

impl<'h> Eq for KeyRef<'h> {
    ghost laws = { nat_list_eq_equiv };
}

/// A value that a history keeps.
#[derive(Debug, Drop)]
pub struct ValueRef<'h> {
    text: &'h str,
}

impl<'h> Model for ValueRef<'h> {
    ghost use Rattle.std.specs.Prelude.{◌≡◌, true, List, ℕ};
    ghost use Rattle.tag.specs.Names.{is_value};

    ghost Value = { List ℕ };

    ghost view = { λ v. v.text.now };

    ghost invariant = { λ v. is_value v.text.now ≡ true };
}

impl<'h> ValueRef<'h> {
    /// That value.
    pub fn of(value: &'h Value) -> ValueRef<'h>
        ensures { result ≡ value.now }
    {
        ValueRef {
            text: value.as_str(),
        }
    }

    /// The value of that text.
    pub fn of_text(text: &'h str) -> ValueRef<'h>
        requires { is_value text.now ≡ true }
        ensures { result ≡ text.now }
    {
        ValueRef { text }
    }

    /// The text.
    pub fn as_str(&self) -> &'h str
        ensures text { result.now ≡ self.now }
        ensures lawful { is_value self.now ≡ true }
    {
        self.text
    }

    /// An equal value, with a text of its own.
    pub fn to_value(&self, alloc: Global) -> Result<Value, Memory>
        ensures { IfOk result (λ value. value ≡ self.now) }
    {
        match Value::new(alloc, self.text) {
            Ok(value) => Ok(value),
            Err(_) => Err(Memory),
        }
    }
}

impl<'h> PartialEq for ValueRef<'h> {
    ghost eq = { bytes_eq };

    ghost laws = { partial_equiv_from_equiv nat_list_eq_equiv };

    fn eq(&self, other: &ValueRef<'h>) -> bool {
        self.text == other.text
    }
}

impl<'h> Eq for ValueRef<'h> {
    ghost laws = { nat_list_eq_equiv };
}

/// What a call asks, its value being one that a history keeps.
#[derive(Debug, Drop)]
pub struct ActionRef<'h> {
    written: Option<ValueRef<'h>>,
}

impl<'h> Model for ActionRef<'h> {
    ghost use Rattle.tag.specs.declared.actions.Action.{Action};
    ghost use Rattle.recorder.specs.Shown.{action_with};

    ghost Value = { Action };

    ghost view = { λ a. action_with a.written };
}

impl<'h> ActionRef<'h> {
    /// That action.
    pub fn of(action: &'h Action) -> ActionRef<'h>
        ensures { result ≡ action.now }
    {
        ActionRef {
            written: match action {
                Action::Read => None,
                Action::Write(value) => Some(ValueRef::of(value)),
            },
        }
    }

    /// A read.
    pub fn read() -> ActionRef<'h>
        ensures { result ≡ Action.Read }
    {
        ActionRef { written: None }
    }

    /// A write of that value.
    pub fn write(value: ValueRef<'h>) -> ActionRef<'h>
        ensures { result ≡ Action.Write value.entry }
    {
        ActionRef {
            written: Some(value),
        }
    }

    /// The value that it writes, if it is a write.
    pub fn written(&self) -> Option<ValueRef<'h>>
        ensures read { IfNone result (self.now ≡ Action.Read) }
        ensures write { IfSome result (λ value. self.now ≡ Action.Write value) }
    {
        match &self.written {
            None => None,
            Some(value) => Some(ValueRef { text: value.text }),
        }
    }
}

impl<'h> PartialEq for ActionRef<'h> {
    ghost eq = { on written_of ⟦<Option<ValueRef<'h>> as PartialEq>⟧.eq };

    ghost laws = { on_per written_of (option_per ⟦<ValueRef<'h> as PartialEq>⟧.eq
        (partial_equiv_from_equiv nat_list_eq_equiv)) };

    fn eq(&self, other: &ActionRef<'h>) -> bool {
        self.written == other.written
    }
}

/// What a call answers, its value being one that a history keeps.
#[derive(Debug, Drop)]
pub struct ReturnedRef<'h> {
    answered: Option<Option<ValueRef<'h>>>,
}

impl<'h> Model for ReturnedRef<'h> {
    ghost use Rattle.tag.specs.declared.actions.Returned.{Returned};
    ghost use Rattle.recorder.specs.Shown.{returned_with};

    ghost Value = { Returned };

    ghost view = { λ r. returned_with r.answered };
}

impl<'h> ReturnedRef<'h> {
    /// That answer.
    pub fn of(returned: &'h Returned) -> ReturnedRef<'h>
        ensures { result ≡ returned.now }
    {
        ReturnedRef {
            answered: match returned {
                Returned::Written => None,
                Returned::Value(None) => Some(None),
                Returned::Value(Some(value)) => Some(Some(ValueRef::of(value))),
            },
        }
    }

    /// A write is done.
    pub fn done() -> ReturnedRef<'h>
        ensures { result ≡ Returned.Written }
    {
        ReturnedRef { answered: None }
    }

    /// A read answers that value, or that there is none.
    pub fn value(value: Option<ValueRef<'h>>) -> ReturnedRef<'h>
        ensures { result ≡ Returned.Value value.entry }
    {
        ReturnedRef {
            answered: Some(value),
        }
    }

    /// What a read answers, if it is a read's.
    pub fn answered(&self) -> Option<Option<ValueRef<'h>>>
        ensures done { IfNone result (self.now ≡ Returned.Written) }
        ensures read { IfSome result (λ value. self.now ≡ Returned.Value value) }
    {
        match &self.answered {
            None => None,
            Some(None) => Some(None),
            Some(Some(value)) => Some(Some(ValueRef { text: value.text })),
        }
    }
}

impl<'h> PartialEq for ReturnedRef<'h> {
    ghost eq = { on answered_of ⟦<Option<Option<ValueRef<'h>>> as PartialEq>⟧.eq };

    ghost laws = { on_per answered_of (option_per ⟦<Option<ValueRef<'h>> as PartialEq>⟧.eq
        (option_per ⟦<ValueRef<'h> as PartialEq>⟧.eq (partial_equiv_from_equiv nat_list_eq_equiv))) };

    fn eq(&self, other: &ReturnedRef<'h>) -> bool {
        self.answered == other.answered
    }
}
