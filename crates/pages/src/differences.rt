// Whether no two words are equal. No word is compared to all others: each is on one of many chains, on which equal
// words meet: a hash index in fixed memory, since no map of the library has its words on the stack.
ghost use Rattle.std.specs.Prelude.{◌≡◌, ◌≤◌, ◌<◌, length, take};
ghost use Rattle.theory.specs.Limits.{page_limit};
ghost use Rattle.pages.specs.Private.Differences.{all_different, absent, chain_of, few_chains, Walk, Room};

use super::PAGE_LIMIT;

// As many words as are not few.
const MANY: usize = 64;

// How many chains there are for few words and for many: prime numbers, which spread words that end in zeros.
const FEW_CHAINS: usize = 61;

const MANY_CHAINS: usize = 4093;

// The chain that a word is on, where there are so many chains.
fn chain(word: u64, chains: usize) -> usize
    requires { few_chains ≤ chains }
    ensures { (result ≡ chain_of chains word) × (result < chains) }
{
    if chains < MANY_CHAINS {
        return word as usize % FEW_CHAINS;
    }
    word as usize % MANY_CHAINS
}

// Whether a word is none of the first `latest` words. Only those on its chain are compared: the last of them is on it,
// and the links lead back along it, to 0 at its end: fixed memory has no list to go through.
fn fresh(words: &[u64], links: &[u16], word: u64, latest: usize) -> bool
    requires { Walk words.now links.now word latest }
    ensures { result ≡ absent word (take latest words.now) }
{
    let mut p = latest;
    while p != 0 {
        if words[p - 1] == word {
            return false;
        }
        p = links[p - 1] as usize;
    }
    true
}

// Whether no two of these words are equal. `heads` has one more than the index of the latest word on each chain, and
// `links` the same of the word before each on its chain; both are lent, `heads` as zeros.
fn different_with(words: &[u64], heads: &mut [u16], links: &mut [u16]) -> bool
    requires { Room words.now heads.old links.old }
    ensures { result ≡ all_different words.now }
{
    for (i, &word) in words.iter().enumerate() {
        let place = chain(word, heads.len());
        let latest = heads[place];
        if !fresh(words, links, word, latest as usize) {
            return false;
        }
        links[i] = latest;
        heads[place] = (i + 1) as u16;
    }
    true
}

// Whether no two of these words are equal. Few words have few chains, so that little room is cleared for them. The
// compiler may not take this into a caller, whose other calls would then stand above the arrays on the stack.
#[inline(never)]
pub fn different(words: &[u64]) -> bool
    requires { length words.now ≤ page_limit }
    ensures { result ≡ all_different words.now }
{
    if words.len() < MANY {
        let mut heads = [0u16; FEW_CHAINS];
        let mut links = [0u16; MANY];
        return different_with(words, &mut heads, &mut links);
    }
    let mut heads = [0u16; MANY_CHAINS];
    let mut links = [0u16; PAGE_LIMIT];
    different_with(words, &mut heads, &mut links)
}
