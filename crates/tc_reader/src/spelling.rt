//! The words of the script language: keywords, names and verdicts.
ghost use Rattle.std.specs.Prelude.{◌≡◌, None, Some, if◌then◌else◌};
ghost use Rattle.tc_entry.specs.Prelude.{is_name};
ghost use Rattle.tc_reader.specs.{Words.is_text, Words.keyword, Words.verdict};

use crate::line::Keyword;
use tc_entry::{Name, UserVerdict};
use tc_step::Status;

/// Whether the word is spelled so.
#[tactic(auto, unfolding(crate::specs::Words::is_text), using(crate::proofs::Naming::other_length))]
#[inline(always)]
pub fn is_word(word: &[u8], spelling: &[u8]) -> bool
    ensures { result ≡ is_text word.now spelling.now }
{
    // Most words are of another length: then nothing is called.
    word.len() == spelling.len() && word == spelling
}

impl Keyword {
    /// Its spelling.
    #[inline(always)]
    #[tactic(auto, unfolding(crate::specs::Words::keyword, crate::specs::Words::is_text))]
    pub fn text(self) -> &'static str
        ensures { keyword result.now ≡ Some self }
    {
        match self {
            Keyword::TestCase => "testcase",
            Keyword::Behaviour => "behaviour",
            Keyword::End => "end",
            Keyword::Create => "create",
            Keyword::Start => "start",
            Keyword::Stop => "stop",
            Keyword::Kill => "kill",
            Keyword::StopCase => "stopcase",
            Keyword::Ask(Status::Running) => "running",
            Keyword::Ask(Status::Alive) => "alive",
            Keyword::Ask(Status::Done) => "done",
            Keyword::Ask(Status::Killed) => "killed",
            Keyword::Wait => "wait",
            Keyword::SetVerdict => "setverdict",
            Keyword::GetVerdict => "getverdict",
        }
    }
}

// The value of the first of these texts that is the word, if one is.
macro_rules! spelled {
    ($word:expr, $($text:literal => $value:expr),+ $(,)?) => {
        $(if is_word($word, $text) { Some($value) } else)+ { None }
    };
}

/// The keyword of this spelling.
#[tactic(auto, unfolding(crate::specs::Words::keyword))]
pub fn read_keyword(word: &[u8]) -> Option<Keyword>
    ensures { result ≡ keyword word.now }
{
    spelled!(word,
        b"testcase" => Keyword::TestCase,
        b"behaviour" => Keyword::Behaviour,
        b"end" => Keyword::End,
        b"create" => Keyword::Create,
        b"start" => Keyword::Start,
        b"stop" => Keyword::Stop,
        b"kill" => Keyword::Kill,
        b"stopcase" => Keyword::StopCase,
        b"running" => Keyword::Ask(Status::Running),
        b"alive" => Keyword::Ask(Status::Alive),
        b"done" => Keyword::Ask(Status::Done),
        b"killed" => Keyword::Ask(Status::Killed),
        b"wait" => Keyword::Wait,
        b"setverdict" => Keyword::SetVerdict,
        b"getverdict" => Keyword::GetVerdict,
    )
}

/// What `setverdict` may set, by its name.
#[tactic(auto, unfolding(crate::specs::Words::verdict))]
pub(crate) fn read_verdict(word: &[u8]) -> Option<UserVerdict>
    ensures { result ≡ verdict word.now }
{
    spelled!(word,
        b"none" => UserVerdict::None,
        b"pass" => UserVerdict::Pass,
        b"inconc" => UserVerdict::Inconc,
        b"fail" => UserVerdict::Fail,
    )
}

/// The name that is spelled so, if there is one.
pub fn read_name(word: &[u8]) -> Option<Name>
    ensures { result ≡ (if is_name word.now then Some word.now else None) }
{
    Name::of_bytes(word)
}
