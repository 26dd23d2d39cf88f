//! What tells another seat of a call.
ghost use Rattle.std.specs.Prelude.{◌≡◌, ◌≤◌};
ghost use Rattle.hall_lock.specs.Halls.{most_elements};

use std::marker::Model;
use tag::OpId;

/// That a call was answered: by which store, in which hall, and at which place of that hall's record. A seat
/// that met it begins its later calls after that place.
#[derive(Clone, Copy, Debug, PartialEq, Eq)]
pub struct Receipt {
    store: u64,
    hall: u8,
    call: OpId,
    place: usize,
}

impl Model for Receipt {
    ghost use Rattle.std.specs.Prelude.{◌≤◌, refl, ℕ};
    ghost use Rattle.std.specs.Coded.{code_by, coded×, coded_ℕ};
    ghost use Rattle.tag.specs.declared.numbers.OpId.{OpId};
    ghost use Rattle.hall_lock.specs.Halls.{most_elements};
    ghost use Rattle.seats.specs.Receipts.{Receipt};

    ghost Value = { Receipt };

    ghost coded = { code_by (ℕ × (ℕ × (ℕ × ℕ)))
        (coded× coded_ℕ (coded× coded_ℕ (coded× coded_ℕ coded_ℕ)))
        (λ r. (r.store, (r.hall, (r.call.0, r.place))))
        (λ p. record {
          store = p.0;
          hall = p.1.0;
          call = record { 0 = p.1.1.0 };
          place = p.1.1.1;
        })
        (λ _. refl) };

    ghost view = { λ r. record { store = r.store; hall = r.hall; call = r.call; place = r.place } };

    ghost invariant = { λ r. r.place ≤ most_elements };

    ghost inverse = { λ r. record {
      store = r.store;
      hall = r.hall;
      call = r.call;
      place = r.place;
    } };
}

impl Receipt {
    pub(crate) fn new(store: u64, hall: u8, call: OpId, place: usize) -> Receipt
        requires few { place ≤ most_elements }
        ensures { result ≡ record { store = store; hall = hall; call = call; place = place } }
    {
        Receipt {
            store,
            hall,
            call,
            place,
        }
    }

    /// The store that answered.
    pub fn store(&self) -> u64
        ensures { result ≡ self.now.store }
    {
        self.store
    }

    /// The hall of the call's key.
    pub fn hall(&self) -> u8
        ensures { result ≡ self.now.hall }
    {
        self.hall
    }

    /// The call's number in that hall's record.
    pub fn call(&self) -> OpId
        ensures { result ≡ self.now.call }
    {
        self.call
    }

    /// The place of its response in that record.
    pub fn place(&self) -> usize
        ensures place { result ≡ self.now.place }
        ensures few { result ≤ most_elements }
    {
        self.place
    }
}
