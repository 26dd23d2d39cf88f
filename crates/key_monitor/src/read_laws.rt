//! Laws of open reads, each the contract of a function that does nothing.
//!
//! A read is open until a row answers it; the place at which the first of them began says what may be forgotten.
ghost use Rattle.std.specs.Prelude.{ℕ, ◌≤◌, List, Option};
ghost use Rattle.recorder.specs.declared.part.Call.{Call};
ghost use Rattle.recorder.specs.Sound.{IsRead, IsWrite};
ghost use Rattle.kept_families.specs.Continued.{AreOpenIn};
ghost use Rattle.kept_families.specs.Open.{IsFirstOpen, IsOpen};
ghost use Rattle.key_monitor.specs.Judged.{AnswersCall, BeginsCall};
ghost use Rattle.key_monitor.specs.Pending.{AreOpenAt, HasOpen, IsLeastPlace, LacksOpen};

/// The least place at which an open read began is that of the first open one.
pub fn the_least_place_is_that_of_the_first_open_read()
    ensures { (part : List Call) (row place : ℕ) (opens : ℕ → Option ℕ) → AreOpenAt part row opens
        → IsLeastPlace opens row place → IsFirstOpen part row place }
{}

/// A read that begins is open.
pub fn a_read_that_begins_is_open()
    ensures { (before after : List Call) (row place op : ℕ) (opens new : ℕ → Option ℕ)
        (call : Call) → AreOpenAt before row opens → AreOpenIn row before after
        → ((read : Call) → IsOpen before row read → read.invoked ≤ row)
        → BeginsCall row place before after call → IsRead call → HasOpen opens place op new
        → AreOpenAt after place new }
{}

/// A write that begins opens none.
pub fn a_write_that_begins_opens_none()
    ensures { (before after : List Call) (row place : ℕ) (opens : ℕ → Option ℕ) (call : Call)
        → AreOpenAt before row opens → AreOpenIn row before after
        → ((read : Call) → IsOpen before row read → read.invoked ≤ row)
        → BeginsCall row place before after call → IsWrite call → AreOpenAt after place opens }
{}

/// A read that is answered is open no more.
pub fn an_answered_read_is_open_no_more()
    ensures { (before after : List Call) (row place : ℕ) (opens new : ℕ → Option ℕ) (call : Call)
        → AreOpenAt before row opens → AreOpenIn row before after
        → ((read : Call) → IsOpen before row read → read.invoked ≤ row)
        → AnswersCall row place before after call → LacksOpen opens call.invoked new
        → AreOpenAt after place new }
{}

/// A write's answer closes none.
pub fn an_answered_write_closes_none()
    ensures { (before after : List Call) (row place : ℕ) (opens : ℕ → Option ℕ) (call : Call)
        → AreOpenAt before row opens → AreOpenIn row before after
        → ((read : Call) → IsOpen before row read → read.invoked ≤ row)
        → AnswersCall row place before after call → IsWrite call → AreOpenAt after place opens }
{}
