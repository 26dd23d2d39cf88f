//! The words of a page of whole histories: of no contract, all in this file. The rest of them stands
//! with the pages of keys.

pub(crate) const TITLE: &str = "abd draw --whole";

pub(crate) const YES: &str = "yes";

pub(crate) const NO: &str = "no";

pub(crate) const UNDECIDED: &str = "undecided";

pub(crate) const WHY: &str = "why";

pub(crate) const SUM: &str = "sum";

pub(crate) const HINT: &str = "hint";

pub(crate) const HALL: &str = "Hall ";

pub(crate) const COMMA: &str = ", ";

pub(crate) const ALL_KEYS: &str = "all keys: ";

pub(crate) const ONE_ORDER: &str = "one order of all calls";

pub(crate) const A_KEY_IS_REFUSED: &str = "a key is refused";

pub(crate) const A_KEY_IS_UNDECIDED: &str = "a key is undecided";

pub(crate) const KEYS_REFUSED: &str = "Keys refused: ";

pub(crate) const WHY_THE_FIRST_IS: &str =
    ". Below is why the first is refused; abd draw without --whole draws the keys one by one, refused ones first.";

pub(crate) const NO_CALL: &str = "No call is drawn: the history has none.";

pub(crate) const NO_CALLS: &str = "Keys without calls";

pub(crate) const HALL_ID: &str = "hall-";

pub(crate) const OTHERS_ID: &str = "others";
