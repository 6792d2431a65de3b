//! The options of `solo` and `run`.
ghost use Rattle.std.specs.Prelude.{◌≡◌, map, string_bytes, option_copied, codes};
ghost use Rattle.command_words.specs.Options.{is_setup_key, is_crew_key, is_key, place_of, die_of, given, is_fresh, are_options, said, setup_of, crew_of, solo_options, run_options};
ghost use Rattle.command_words.specs.Places.{number_in};
ghost use Rattle.dispatcher.specs.declared.side.Place.TheVariants.{Auto};
ghost use Rattle.command_words.specs.declared.options.DieKind.TheVariants.{Mem};

use crate::numbers::number_in;
use dispatcher::Place;

/// What the dies of a drive are.
#[derive(Clone, Copy, Debug, PartialEq, Eq)]
pub enum DieKind {
    /// Pages in memory.
    Mem,
    /// Raw flash in memory, below a translation layer.
    Ftl,
    /// Two copies in memory.
    Mirror,
}

/// Where functions run, and on what dies: `--place` and `--die`.
#[derive(Clone, Copy, Debug, PartialEq, Eq)]
pub struct Setup {
    pub place: Place,
    pub dies: DieKind,
}

/// How many threads serve the drive: `--workers` and `--flushers`.
#[derive(Clone, Copy, Debug, PartialEq, Eq)]
pub struct Crew {
    pub workers: u32,
    pub flushers: u32,
}

fn is_setup_key(key: &str) -> bool
    ensures { result ≡ is_setup_key key.now }
{
    key == "--place" || key == "--die"
}

fn is_crew_key(key: &str) -> bool
    ensures { result ≡ is_crew_key key.now }
{
    key == "--workers" || key == "--flushers"
}

fn is_key(threads: bool, key: &str) -> bool
    ensures { result ≡ is_key threads key.now }
{
    is_setup_key(key) || (threads && is_crew_key(key))
}

fn place_of(word: &str) -> Option<Place>
    ensures { result ≡ place_of word.now }
{
    match word {
        "auto" => Some(Place::Auto),
        "host" => Some(Place::Host),
        "drive" => Some(Place::Drive),
        _ => None,
    }
}

fn die_of(word: &str) -> Option<DieKind>
    ensures { result ≡ die_of word.now }
{
    match word {
        "mem" => Some(DieKind::Mem),
        "ftl" => Some(DieKind::Ftl),
        "mirror" => Some(DieKind::Mirror),
        _ => None,
    }
}

// The value behind a key, where the key is given.
fn given<'a>(key: &str, words: &'a [String]) -> Option<&'a str>
    ensures { option_copied result ≡ given key.now (map string_bytes words.now) }
{
    let mut rest = words;
    while let [other, value, tail @ ..] = rest {
        if other.as_str() == key {
            return Some(value.as_str());
        }
        rest = tail;
    }
    None
}

// Whether a key is the command's, and isn't given again.
#[tactic(auto, unfolding(crate::specs::Options::is_fresh))]
fn is_fresh(threads: bool, key: &str, rest: &[String]) -> bool
    ensures { result ≡ is_fresh threads key.now (map string_bytes rest.now) }
{
    is_key(threads, key) && given(key, rest).is_none()
}

// Whether the words are pairs of a key and a value, none given twice.
fn are_options(threads: bool, words: &[String]) -> bool
    ensures { result ≡ are_options threads (map string_bytes words.now) }
{
    let mut rest = words;
    while let [key, _, tail @ ..] = rest {
        if !is_fresh(threads, key.as_str(), tail) {
            return false;
        }
        rest = tail;
    }
    rest.is_empty()
}

fn place_in(words: &[String]) -> Option<Place>
    ensures { result ≡ said place_of Auto (given (codes "--place") (map string_bytes words.now)) }
{
    match given("--place", words) {
        Some(word) => place_of(word),
        None => Some(Place::Auto),
    }
}

fn dies_in(words: &[String]) -> Option<DieKind>
    ensures { result ≡ said die_of Mem (given (codes "--die") (map string_bytes words.now)) }
{
    match given("--die", words) {
        Some(word) => die_of(word),
        None => Some(DieKind::Mem),
    }
}

fn workers_in(words: &[String]) -> Option<u32>
    ensures { result ≡ said (number_in 1 8) 2 (given (codes "--workers") (map string_bytes words.now)) }
{
    match given("--workers", words) {
        Some(word) => number_in(1, 8, word.as_bytes()),
        None => Some(2),
    }
}

fn flushers_in(words: &[String]) -> Option<u32>
    ensures { result ≡ said (number_in 0 4) 1 (given (codes "--flushers") (map string_bytes words.now)) }
{
    match given("--flushers", words) {
        Some(word) => number_in(0, 4, word.as_bytes()),
        None => Some(1),
    }
}

#[tactic(auto, unfolding(crate::specs::Options::setup_of))]
fn setup_of(words: &[String]) -> Option<Setup>
    ensures { result ≡ setup_of (map string_bytes words.now) }
{
    let place = place_in(words)?;
    let dies = dies_in(words)?;
    Some(Setup { place, dies })
}

#[tactic(auto, unfolding(crate::specs::Options::crew_of))]
fn crew_of(words: &[String]) -> Option<Crew>
    ensures { result ≡ crew_of (map string_bytes words.now) }
{
    let workers = workers_in(words)?;
    let flushers = flushers_in(words)?;
    Some(Crew { workers, flushers })
}

// The options of `solo`.
pub fn solo_options(words: &[String]) -> Option<Setup>
    ensures { result ≡ solo_options (map string_bytes words.now) }
{
    if are_options(false, words) {
        return setup_of(words);
    }
    None
}

// The options of `run`.
pub fn run_options(words: &[String]) -> Option<(Setup, Crew)>
    ensures { result ≡ run_options (map string_bytes words.now) }
{
    if are_options(true, words) {
        let setup = setup_of(words)?;
        let crew = crew_of(words)?;
        return Some((setup, crew));
    }
    None
}
