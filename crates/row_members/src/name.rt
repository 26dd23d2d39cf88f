//! The names that members of rows have.
ghost use Rattle.std.specs.Prelude.{◌≡◌, ◌<◌};
ghost use Rattle.row_members.specs.Names.{text_of, place_of};

/// The names of the members that a row's line may have.
#[derive(Clone, Copy, Debug)]
pub enum Name {
    Call,
    Client,
    Do,
    Hall,
    Key,
    Number,
    Row,
    Value,
    Writer,
}

impl Name {
    /// The name as it stands in a line.
    pub fn text(self) -> &'static str
        ensures { result.now ≡ text_of self }
    {
        match self {
            Name::Call => "call",
            Name::Client => "client",
            Name::Do => "do",
            Name::Hall => "hall",
            Name::Key => "key",
            Name::Number => "number",
            Name::Row => "row",
            Name::Value => "value",
            Name::Writer => "writer",
        }
    }

    /// The name's place among all nine, from 0.
    pub(crate) fn place(self) -> usize
        ensures place { result ≡ place_of self }
        ensures within { result < 9 }
    {
        match self {
            Name::Call => 0,
            Name::Client => 1,
            Name::Do => 2,
            Name::Hall => 3,
            Name::Key => 4,
            Name::Number => 5,
            Name::Row => 6,
            Name::Value => 7,
            Name::Writer => 8,
        }
    }
}
