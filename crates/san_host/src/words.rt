//! The words of the command line.

ghost use Rattle.std.specs.Prelude.{◌≡◌, drop, IfOk};
ghost use Rattle.std.specs.Vec.Iter.{into_iter_items};

use san_base::{NoMemory, Status};
use std::alloc::Global;
use std::rt::Env;
use std::vec::IntoIter;
use std::{env, io};

/// Why there are no words.
#[derive(Clone, Copy, Debug, PartialEq, Eq)]
pub enum NoWords {
    /// One of them isn't UTF-8.
    NotText,
    NoMemory,
}

impl NoWords {
    /// How the program ends.
    pub fn status(self) -> Status
        ensures not_text { self ≡ NoWords.NotText → result ≡ Status.Words }
        ensures memory { self ≡ NoWords.NoMemory → result ≡ Status.NoMemory }
    {
        match self {
            NoWords::NotText => Status::Words,
            NoWords::NoMemory => Status::NoMemory,
        }
    }
}

impl From<NoMemory> for NoWords {
    ghost use Rattle.san_host.specs.declared.words.NoWords.TheVariants as no_words;

    ghost from_gives = { λ _ why. why ≡ no_words.NoMemory };

    fn from(_error: NoMemory) -> NoWords {
        NoWords::NoMemory
    }
}

/// All but the first, which is the program's name.
fn without_name(alloc: Global, mut all: IntoIter<String>) -> Result<Vec<String>, NoMemory>
    ensures { IfOk result (λ words. words.items ≡ drop 1 (into_iter_items all)) }
{
    let _name = all.next();
    let mut words = Vec::new(alloc);
    'words: for word in all {
        words.push(word)?;
    }
    Ok(words)
}

/// The words after the program's name.
pub fn words_of<R: Env + AllocGlobal>(rt: &R) -> Result<Vec<String>, NoWords> {
    match env::args(rt) {
        Ok(all) => Ok(without_name(rt.alloc(), all)?),
        Err(error) if error.kind() == io::ErrorKind::OutOfMemory => Err(NoWords::NoMemory),
        Err(_) => Err(NoWords::NotText),
    }
}
