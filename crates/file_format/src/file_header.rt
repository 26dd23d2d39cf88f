//! What the first line of a history file says.
ghost use Rattle.std.specs.Prelude.{◌≡◌, ◌≤◌, true};
ghost use Rattle.tag.specs.Names.{is_key};
ghost use Rattle.recorder.specs.Halls.{AreHalls, hall_of};
ghost use Rattle.file_format.specs.Ranges.{HasLawful};
ghost use Rattle.file_format.specs.Texts.{header_of_histories};
ghost use Rattle.file_format.specs.FileHeaders.{halls_in, quorums_in, written_hall};

use quorum::Quorums;
use recorder::{Halls, Histories};

/// What the first line of a history file says of the others.
#[derive(Clone, Copy, Debug, PartialEq, Eq)]
pub enum FileHeader {
    /// There is one hall, and nothing is known of the store's quorums.
    Version1,
    /// So many halls, of a store with those quorums.
    Version2 { halls: Halls, quorums: Quorums },
}

impl FileHeader {
    /// The header of the histories' file: of version 2 where the quorums are known, else of version
    /// 1.
    pub(crate) fn of(histories: &Histories) -> FileHeader
        ensures header { result ≡ header_of_histories histories.now }
        ensures lawful { HasLawful histories.now.quorums }
        ensures halls { AreHalls histories.now }
    {
        let count = histories.halls().len();
        let Some(quorums) = histories.quorums() else {
            return FileHeader::Version1;
        };
        let _replicas = quorums.replicas();
        match Halls::new(count as u8) {
            Some(halls) => FileHeader::Version2 { halls, quorums },
            None => FileHeader::Version1,
        }
    }

    /// How many halls there are, 1 to 64.
    pub fn halls(&self) -> u8
        ensures count { result ≡ halls_in self.now }
        ensures least { 1 ≤ result }
        ensures most { result ≤ 64 }
    {
        match self {
            FileHeader::Version1 => 1,
            FileHeader::Version2 { halls, .. } => halls.count(),
        }
    }

    /// The quorums of the store, where they are told.
    pub fn quorums(&self) -> Option<Quorums>
        ensures { result ≡ quorums_in self.now }
    {
        match self {
            FileHeader::Version1 => None,
            FileHeader::Version2 { quorums, .. } => Some(*quorums),
        }
    }

    /// The number of the key's hall.
    pub(crate) fn hall_of(&self, key: &str) -> u8
        requires { is_key key.now ≡ true }
        ensures { result ≡ hall_of (halls_in self.now) key.now }
    {
        match self {
            FileHeader::Version1 => 0,
            FileHeader::Version2 { halls, .. } => halls.of_text(key),
        }
    }

    /// What a row of that hall has as its member `hall`.
    pub(crate) fn place(&self, hall: u8) -> Option<u8>
        ensures { result ≡ written_hall self.now hall }
    {
        match self {
            FileHeader::Version1 => None,
            FileHeader::Version2 { .. } => Some(hall),
        }
    }
}
