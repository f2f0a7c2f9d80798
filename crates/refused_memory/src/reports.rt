//! The forms of histories and of results, the summaries that they are made of, and writers that write a campaign as it runs.
use crate::stock::Stock;
use crate::tells::{Called, Told, call_again, made};
use crate::trial::Trial;
use tc_entry::{Name, NoMemory, Sequence};
use tc_report::{
    CampaignEnd, LiveForm, LiveWriter, OutFault, Said, Times, csv_report, junit_report, status_of,
    summaries_of_results, summary_of_case, summary_of_state, summary_report, tally, worst_status,
    write_csv, write_evidence, write_history, write_junit, write_text,
};

const VERSION: &str = "1";

const FORMS: [LiveForm; 4] = [
    LiveForm::Text,
    LiveForm::Csv,
    LiveForm::History,
    LiveForm::Evidence,
];

/// The forms of histories, of results, and the summaries.
pub(crate) fn make(trial: &mut Trial, stock: &Stock) {
    make_texts(trial, stock);
    write(trial, stock);
    summarize(trial, stock);
}

/// The forms of histories.
fn make_texts(trial: &mut Trial, stock: &Stock) {
    let alloc = trial.alloc;
    let times = Times::none(alloc);
    if let Ok(cases) = summaries_of_results(alloc, &[], &stock.results) {
        trial.begin("csv_report junit_report write_junit summary_report");
        made(csv_report(alloc, &cases), NoMemory, trial);
        made(
            junit_report(alloc, VERSION, &None, &times, &cases),
            NoMemory,
            trial,
        );
        let answer = write_junit(alloc, VERSION, &None, &times, &cases, &mut trial.out);
        written(trial, answer);
        made(summary_report(alloc, &cases), NoMemory, trial);
        trial.end();
        drop(cases);
    }
}

/// Takes in whether a form was written, which leaves nothing if it is refused.
fn written(trial: &mut Trial, answer: Result<(), OutFault>) {
    if let Err(why) = answer {
        trial.refuse(why == OutFault::NoMemory);
    }
    trial.end_call();
}

/// The forms of results, to a writer that has room for them.
fn write(trial: &mut Trial, stock: &Stock) {
    let (alloc, results) = (trial.alloc, &stock.results);
    trial.begin("write_text write_csv write_history write_evidence");
    let answer = write_text(alloc, results, &mut trial.out);
    written(trial, answer);
    let answer = write_csv(alloc, results, &mut trial.out);
    written(trial, answer);
    let answer = write_history(alloc, results, &mut trial.out);
    written(trial, answer);
    let answer = write_evidence(alloc, results, &mut trial.out);
    written(trial, answer);
    trial.end();
}

/// The summaries of a state, of a test case and of the results.
fn summarize(trial: &mut Trial, stock: &Stock) {
    let cases = stock.results.finished.as_slice();
    if let Some((name, case)) = Name::read("first").zip(cases.first()) {
        let history = stock.table.history();
        let said = Said::new(trial.alloc);
        trial.begin("summary_of_state summary_of_case summaries_of_results");
        made(
            summary_of_state(trial.alloc, &name, &stock.state, history, &said),
            NoMemory,
            trial,
        );
        made(summary_of_case(trial.alloc, case), NoMemory, trial);
        made(
            summaries_of_results(trial.alloc, &[], &stock.results),
            NoMemory,
            trial,
        );
        trial.end();
    }
}

/// The opening or the closing of a campaign.
#[derive(Clone, Copy)]
enum Piece {
    Opening,
    Closing,
}

impl Told for LiveWriter<'_, Vec<u8>> {
    fn tell(&self, out: &mut Vec<u8>) {
        // There is room for the text.
        let _ = out.extend_from_slice(self.writer);
    }
}

impl Called<Piece> for LiveWriter<'_, Vec<u8>> {
    fn call(&mut self, with: &Piece, _out: &mut Vec<u8>) -> bool {
        match with {
            Piece::Opening => self.begin().is_ok(),
            Piece::Closing => self.end(&CampaignEnd::Complete).is_ok(),
        }
    }
}

/// The opening and the closing by this writer.
fn write_both(trial: &mut Trial, live: &mut LiveWriter<'_, Vec<u8>>) {
    trial.begin("LiveWriter::begin LiveWriter::end");
    call_again(trial, live, &Piece::Opening);
    call_again(trial, live, &Piece::Closing);
    trial.end();
}

/// The opening and the closing in a form; there is room for what is written.
fn write_pieces(trial: &mut Trial, form: LiveForm) {
    if let Ok(mut text) = Vec::with_capacity(trial.alloc, 10_000) {
        write_both(trial, &mut LiveWriter::new(trial.alloc, form, &mut text));
        drop(text);
    }
}

/// The opening and the closing in each form.
pub(crate) fn write_live(trial: &mut Trial) {
    for form in &FORMS {
        write_pieces(trial, *form);
    }
}

/// What is asked of the results, and of the list of no bytes.
pub(crate) fn ask(trial: &mut Trial, stock: &Stock) {
    let bytes = Vec::new(trial.alloc);
    trial.begin_each(
        "Sequence::new Sequence::as_slice Sequence::into_vec tally status_of worst_status",
    );
    let list: Sequence<u8> = Sequence::new(bytes);
    let is_right = (tally(&stock.results).fail == 1)
        & (status_of(&stock.results) == 3)
        & (worst_status(&[]) == 0)
        & list.as_slice().is_empty()
        & list.into_vec().is_empty();
    trial.holds(is_right);
    trial.end();
}
