//! What the program can be asked for.
ghost use Rattle.std.specs.Prelude.{[]};
ghost use Rattle.tc_command.specs.Asked.{Chooses};

use std::alloc::Global;
use tc_entry::{Name, Pattern, Shard};
use tc_verdict::Verdict;

/// In which form the results are written.
#[derive(Debug, Drop, PartialEq, Eq)]
pub enum Form {
    /// The text report.
    Text,
    /// A table, as CSV.
    Csv,
    /// The history of each test case.
    History,
    /// The evidence of each test case: its history with the names of its behaviours.
    Evidence,
    /// A test suite of JUnit's XML, with the name of `--suite`.
    Junit(Option<Name>),
}

/// In which form histories are reported.
#[derive(Debug, Drop, PartialEq, Eq)]
pub enum ReportForm {
    /// The text report.
    Text,
    /// A table, as CSV.
    Csv,
    /// A test suite of JUnit's XML, with the name of `--suite`.
    Junit(Option<Name>),
    /// A page of HTML that holds them.
    Html,
    /// A summary: the counts, and why test cases failed.
    Summary,
}

/// Which test cases of a script are chosen, or which histories without one.
#[derive(Debug, Drop, PartialEq, Eq)]
pub struct Choice {
    /// The patterns of `--only` in their order; without one all are chosen.
    pub only: Vec<Pattern>,
    /// The shard of `--shard`, of a script.
    pub shard: Option<Shard>,
    /// Whether the text has histories or evidence after the script, and of the test cases those are left out that it
    /// shows to have passed. Of histories without a script, those with the verdict none or pass are left out.
    pub failed: bool,
    /// Whether of the blocks of one name only the last counts.
    pub last: bool,
    /// Whether histories may be long, so that each block has a limit.
    pub long: bool,
}

impl Choice {
    /// All of them.
    pub fn all(alloc: Global) -> Choice
        ensures { Chooses [] result }
    {
        Choice {
            only: Vec::new(alloc),
            shard: None,
            failed: false,
            last: false,
            long: false,
        }
    }
}

/// How a campaign is run.
#[derive(Debug, Drop, PartialEq, Eq)]
pub struct RunOptions {
    /// How its results are written.
    pub form: Form,
    /// Whether a JUnit suite has times.
    pub times: bool,
    /// Whether each test case is written as it finishes.
    pub live: bool,
    /// Whether each test case is reported as it finishes.
    pub progress: bool,
    /// Whether of these only the failed ones are reported.
    pub failures: bool,
    /// The stopping rule: a test case with this verdict, or a worse one, is the last.
    pub stop_on: Option<Verdict>,
    /// Which test cases are run.
    pub choice: Choice,
    /// Whether a fault of the script is explained.
    pub explains: bool,
}

/// How test cases are explored.
#[derive(Debug, Drop, PartialEq, Eq)]
pub struct ExploreOptions {
    /// Whether the histories of the witnesses are written.
    pub histories: bool,
    /// Whether they are written with the names of behaviours.
    pub evidence: bool,
    /// Whether details are printed.
    pub details: bool,
    /// Whether local verdicts are printed.
    pub locals: bool,
    /// At how many states of a test case the search looks at most.
    pub states: usize,
    /// Which test cases are explored.
    pub choice: Choice,
    /// Whether a fault of the script is explained.
    pub explains: bool,
}

/// What the program is asked for. A task that explains says after the line of a fault what is there.
#[derive(Debug, Drop, PartialEq, Eq)]
pub enum Task {
    /// Replay a list of moves.
    Replay {
        explains: bool,
    },
    /// Run a campaign.
    Run(RunOptions),
    /// Answer the lines of a client as they come.
    Serve,
    /// Print the names of the test cases, and run none.
    List {
        choice: Choice,
        explains: bool,
    },
    /// Check histories and evidence, and print of the legal ones the chosen.
    Check {
        choice: Choice,
        explains: bool,
    },
    /// Compare histories and evidence with the chosen test cases of the script before them in one text: check them, or
    /// report them in a form.
    Compare {
        form: Option<ReportForm>,
        choice: Choice,
        explains: bool,
    },
    /// Report the chosen histories in this form.
    Report {
        form: ReportForm,
        choice: Choice,
        explains: bool,
    },
    /// Write the models of the chosen histories.
    Model {
        choice: Choice,
        explains: bool,
    },
    /// Explore the chosen test cases of a campaign.
    Explore(ExploreOptions),
}
