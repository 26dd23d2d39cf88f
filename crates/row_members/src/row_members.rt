//! A row's line, and its members.
ghost use Rattle.std.specs.Prelude.{◌≡◌, ◌≤◌, IfSome, length, option_map};
ghost use Rattle.serde_json.specs.Find.{get};
ghost use Rattle.row_members.specs.Names.{text_of};
ghost use Rattle.row_members.specs.Scans.{AddsMember, Puts};
ghost use Rattle.row_members.specs.Values.{HasValue, member_data, value_of};

use crate::keys::key_at;
use crate::member::Member;
use crate::name::Name;
use crate::scan::{after_byte, after_space};
use crate::values::value_at;
use std::marker::Model;
use std::str;

/// How many names there are.
pub const NAMES: usize = 9;

/// Room for the members of one line. Members that stay where they are cost less than such that are moved.
pub type MemberRoom<'a> = [Option<Member<'a>>; NAMES];

/// The members of a row's line. In clauses it is the line.
#[derive(Debug, Drop)]
pub struct RowMembers<'a, 'm> {
    line: &'a [u8],
    /// The member of each name, at the name's place.
    members: &'m MemberRoom<'a>,
}

impl<'a, 'm> Model for RowMembers<'a, 'm> {
    ghost use Rattle.std.specs.Prelude.{List, ℕ};

    ghost Value = { List ℕ };

    ghost use Rattle.row_members.specs.Values.{HasMembers};

    ghost view = { λ r. r.line.now };

    ghost invariant = { λ r. HasMembers r.line.now r.members.now };
}

/// Puts the member at the place of its name, over one that was there.
fn put<'a>(members: &mut MemberRoom<'a>, name: Option<Name>, member: Member<'a>)
    ensures { Puts members.old name member.entry members.new }
{
    match name {
        Some(name) => members[name.place()] = Some(member),
        None => {}
    }
}

/// Puts the member that stands there, if its name is one of the nine. The place after the member.
fn add_member<'a>(members: &mut MemberRoom<'a>, text: &'a str, start: usize) -> Option<usize>
    requires { start ≤ length text.now }
    ensures { IfSome result (AddsMember text.now start members.old members.new) }
{
    let (name, next) = key_at(text.as_bytes(), start)?;
    let (member, end) = value_at(text, next)?;
    put(members, name, member);
    Some(end)
}

impl<'a, 'm> RowMembers<'a, 'm> {
    /// Reads the members of a line into the room, whatever is there. `None` says nothing: such a line is
    /// left to the JSON reader.
    pub fn read(line: &'a [u8], members: &'m mut MemberRoom<'a>) -> Option<RowMembers<'a, 'm>>
        ensures { IfSome result (λ row. (row ≡ line.now) × HasValue line.now) }
    {
        let Ok(text) = str::from_utf8(line) else {
            return None;
        };
        *members = [None; NAMES];
        let mut at = after_byte(line, 0, b'{')?;
        at = add_member(members, text, at)?;
        while let Some(next) = after_byte(line, at, b',') {
            at = add_member(members, text, next)?;
        }
        let end = after_byte(line, at, b'}')?;
        if after_space(line, end) < line.len() {
            return None;
        }
        Some(RowMembers { line, members })
    }

    /// The member of that name.
    pub fn member(&self, name: Name) -> Option<Member<'a>>
        ensures member { option_map member_data result ≡ get (text_of name) (value_of self.now) }
        ensures json { HasValue self.now }
    {
        self.members[name.place()]
    }
}
