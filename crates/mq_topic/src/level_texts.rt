//! Interned texts of levels.

ghost use Rattle.std.specs.Prelude.{◌≡◌, ◌<◌, ◌≤◌, All, IfOk, length};
ghost use Rattle.std.specs.Arc.{arc_str_bytes};
ghost use Rattle.std.specs.HashMap.{hash_map_len, values};

use crate::level_map::level_number;
use std::alloc::{AllocError, Global};
use std::collections::HashMap;
use std::sync::ArcStr;

// The maximum number of interned texts.
const MOST: usize = 4_096;

// The maximum length of an interned text, in bytes.
const LONGEST: usize = 64;

/// Interned texts of levels, by level number. Many filters consist of the same few levels, so their
/// nodes share texts, which then stay in the processor's cache.
#[derive(Drop)]
pub(crate) struct LevelTexts {
    alloc: Global,
    texts: HashMap<u64, ArcStr>,
    ghost few: { hash_map_len texts ≤ 4096 },
    ghost short: { All (λ text. length (arc_str_bytes text) ≤ 64) (values texts) },
}

impl LevelTexts {
    /// No texts.
    pub(crate) fn new(alloc: Global) -> LevelTexts {
        LevelTexts {
            alloc,
            texts: HashMap::new(alloc),
        }
    }

    /// Returns the text of a level, the interned one if it exists.
    pub(crate) fn share(&mut self, level: &str) -> Result<ArcStr, AllocError>
        ensures { IfOk result (λ text. arc_str_bytes text ≡ level.now) }
    {
        let number = level_number(level);
        if let Some(text) = self.texts.get(&number) {
            if level == text.as_str() {
                return text.clone();
            }
        }
        let text = ArcStr::from_str(self.alloc, level)?;
        if level.len() <= LONGEST {
            self.keep(number, text.clone()?)?;
        }
        Ok(text)
    }

    // Removes all interned texts if no further one may be kept.
    fn make_room(&mut self)
        ensures { hash_map_len self.new.texts < 4096 }
    {
        if self.texts.len() >= MOST {
            self.texts.clear();
        }
    }

    // Interns a text in place of another with the same number.
    fn keep(&mut self, number: u64, text: ArcStr) -> Result<(), AllocError>
        requires { length (arc_str_bytes text) ≤ 64 }
    {
        self.make_room();
        self.texts.insert(number, text)?;
        Ok(())
    }
}
