//! How many keys have pictures.
ghost use Rattle.std.specs.Prelude.{◌≡◌, map};
ghost use Rattle.judged_keys.specs.Judgements.{judgement_of};
ghost use Rattle.draw_command.specs.Pictured.{ArePictured, window_size};

use crate::drawn::Drawn;
use judged_keys::JudgedKey;

/// How many calls a page has room for, beside those that show why keys are refused.
const PAGE_CALLS: usize = 20_000;

impl Drawn<'_> {
    /// How many calls of the key its picture shows, beside those that show why it is refused.
    fn window_size(&self, key: &JudgedKey<'_>) -> usize
        ensures { result ≡ window_size self.now (judgement_of key.now) }
    {
        key.one.part.len().min(self.calls as usize)
    }

    /// How many of the keys have pictures: the first so many, as many as are to be drawn and as a page
    /// has room for.
    pub(crate) fn pictured_count(&self, keys: &[JudgedKey<'_>]) -> usize
        ensures { ArePictured self.now (map judgement_of keys.now) result }
    {
        let first = &keys[..keys.len().min(usize::from(self.selection.most))];
        let mut calls = 0usize;
        for (n, key) in first.iter().enumerate() {
            let size = self.window_size(key);
            if PAGE_CALLS - calls < size {
                return n;
            }
            calls += size;
        }
        first.len()
    }
}
