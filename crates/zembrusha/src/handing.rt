// How the calls' answers are handed over to C, and a slip is taken from it.
ghost use Rattle.std.specs.Prelude.{◌≡◌};
ghost use Rattle.zembrusha.specs.Exports.{of_word, of_count, of_good, of_list, given, slip_over, handed_over};
ghost use Rattle.words.specs.Answers.{refusal_of, word_told, count_told, good_told};
ghost use Rattle.oldlists.specs.Lists.{list_told};
ghost use Rattle.sessions.specs.Opening.{handed_told};
ghost use Rattle.sessiontext.specs.Calls.{loaded_told};
ghost use Rattle.characters.specs.Watch.{reads};
ghost use Rattle.zembrusha.specs.Exports.{loaded_over, number, fraction};

use super::{Good, Handed, Listed, Loaded, Number, Slip};
use characters::Watched;
use oldlists::Rejected;
use sessions::Refused;
use sessiontext::Unloaded;
use words::Refusal;

// The number of a refusal, 0 for none.
pub fn refused<T: Copy>(answer: Result<T, Refusal>) -> u32
    ensures { result ≡ refusal_of answer }
{
    match answer {
        Ok(_) => 0,
        Err(refusal) => refusal.number() as u32,
    }
}

impl From<Result<u32, Refusal>> for Number {
    ghost from_gives = { λ answer told. told ≡ of_word (word_told answer) };

    fn from(answer: Result<u32, Refusal>) -> Number {
        Number {
            refused: refused(answer),
            number: answer.unwrap_or(0) as u64,
        }
    }
}

impl From<Result<usize, Refusal>> for Number {
    ghost from_gives = { λ answer told. told ≡ of_count (count_told answer) };

    fn from(answer: Result<usize, Refusal>) -> Number {
        Number {
            refused: refused(answer),
            number: answer.unwrap_or(0) as u64,
        }
    }
}

impl From<Result<words::Good, Refusal>> for Good {
    ghost from_gives = { λ answer told. told ≡ of_good (good_told answer) };

    fn from(answer: Result<words::Good, Refusal>) -> Good {
        match answer {
            Ok(good) => Good {
                refused: 0,
                word: good.word,
                dropped: good.dropped,
            },
            Err(refusal) => Good {
                refused: refusal.number() as u32,
                word: 0,
                dropped: 0,
            },
        }
    }
}

impl From<Result<(), Rejected>> for Listed {
    ghost from_gives = { λ answer told. told ≡ of_list (list_told answer) };

    fn from(answer: Result<(), Rejected>) -> Listed {
        match answer {
            Ok(()) => Listed {
                refused: 0,
                index: 0,
            },
            Err(rejected) => Listed {
                refused: rejected.refusal.number() as u32,
                index: rejected.index as u64,
            },
        }
    }
}

impl From<Slip> for pages::Slip {
    ghost from_gives = { λ slip told. told ≡ given slip };

    fn from(slip: Slip) -> pages::Slip {
        pages::Slip {
            shape: slip.shape,
            class: slip.class_word,
            settled: slip.settled,
            lines: slip.lines as usize,
            steps: slip.steps,
            mode: slip.mode,
        }
    }
}

impl From<pages::Slip> for Slip {
    ghost from_gives = { λ slip told. told ≡ slip_over slip };

    fn from(slip: pages::Slip) -> Slip {
        Slip {
            shape: slip.shape,
            class_word: slip.class,
            settled: slip.settled,
            lines: slip.lines as u64,
            steps: slip.steps,
            mode: slip.mode,
        }
    }
}

impl From<Result<pages::Slip, Refused>> for Handed {
    ghost from_gives = { λ answer told. told ≡ handed_over (handed_told answer).refused (handed_told answer).slip };

    fn from(answer: Result<pages::Slip, Refused>) -> Handed {
        match answer {
            Ok(slip) => Handed {
                refused: 0,
                slip: Slip::from(slip),
            },
            Err(refused) => Handed {
                refused: refused.refusal.number() as u32,
                slip: Slip::from(refused.slip),
            },
        }
    }
}

impl From<Result<pages::Slip, Unloaded>> for Loaded {
    ghost from_gives = { λ answer told. told ≡ loaded_over (loaded_told answer).refused (loaded_told answer).line (loaded_told answer).slip };

    fn from(answer: Result<pages::Slip, Unloaded>) -> Loaded {
        match answer {
            Ok(slip) => Loaded {
                refused: 0,
                line: 0,
                slip: Slip::from(slip),
            },
            Err(unloaded) => Loaded {
                refused: unloaded.refusal.number() as u32,
                line: unloaded.line as u64,
                slip: Slip::from(unloaded.slip),
            },
        }
    }
}

// The whole number of what was watched, 0 where there is none.
pub fn whole(watched: Watched) -> i64
    ensures { result ≡ number (reads watched).1 }
{
    match watched {
        Watched::Whole(number) => number,
        Watched::Ratio(_) => 0,
        Watched::Refused(_) => 0,
    }
}

// The ratio of what was watched, 0 where there is none.
pub fn ratio(watched: Watched) -> f64
    ensures { result ≡ fraction (reads watched).1 }
{
    match watched {
        Watched::Ratio(ratio) => ratio,
        Watched::Whole(_) => 0.0,
        Watched::Refused(_) => 0.0,
    }
}

// The number that refused, 0 for none.
pub fn refusal(watched: Watched) -> u32
    ensures { result ≡ (reads watched).0 }
{
    match watched {
        Watched::Refused(number) => number as u32,
        Watched::Whole(_) => 0,
        Watched::Ratio(_) => 0,
    }
}
