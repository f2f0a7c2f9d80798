//! The CSV report.
ghost use Rattle.std.specs.{Prelude.{◌≡◌, ◌++◌, ◌∷◌, [], OnOk, IfOk, IfErr, All, map}, Fmt.IsBoundedDecimal, Fmt.decimal, Io.KnownBytes.Appends, List.flat_map};
ghost use Rattle.csv.specs.Records.{fields_of, partial_of};
ghost use Rattle.tc_rules.specs.Prelude.{IsName};
ghost use Rattle.tc_report.specs.{Csv.columns_text, Csv.csv_of, Csv.row_line, Inside.IsBetweenRecords, Inside.IsStarted, Inside.counts_of, Inside.written_by, Output.LeavesPrefix, Status.ended, Summary.case_summary};

use crate::fault::OutFault;
use crate::output::write_made;
use crate::results::{Finished, Results, count_of};
use crate::status::ended as case_ended;
use crate::summary::{Summary, summaries_of_cases, summary_of_case};
use csv::{ByteRecord, Writer, WriterBuilder};
use std::alloc::Global;
use std::io::Write;
use tc_entry::{NoMemory, Verdict};

fn push_count(alloc: Global, row: &mut ByteRecord, count: usize) -> Result<(), NoMemory>
    requires { partial_of row.old ≡ [] }
    ensures fields { OnOk result (fields_of row.new ≡ fields_of row.old ++ decimal count ∷ []) }
    ensures partial { OnOk result (partial_of row.new ≡ []) }
    ensures digits { OnOk result (IsBoundedDecimal count) }
{
    let digits = count.to_string(alloc)?;
    row.push_field(digits.as_bytes())?;
    Ok(())
}

fn push_counts(alloc: Global, row: &mut ByteRecord, locals: &[Verdict]) -> Result<(), NoMemory>
    requires { partial_of row.old ≡ [] }
    ensures fields { OnOk result (fields_of row.new ≡ fields_of row.old ++ map decimal (counts_of locals.now)) }
    ensures partial { OnOk result (partial_of row.new ≡ []) }
    ensures digits { OnOk result (All IsBoundedDecimal (counts_of locals.now)) }
{
    push_count(alloc, row, locals.len())?;
    push_count(alloc, row, count_of(locals, Verdict::None))?;
    push_count(alloc, row, count_of(locals, Verdict::Pass))?;
    push_count(alloc, row, count_of(locals, Verdict::Inconc))?;
    push_count(alloc, row, count_of(locals, Verdict::Fail))?;
    push_count(alloc, row, count_of(locals, Verdict::Error))
}

fn push_fields(alloc: Global, row: &mut ByteRecord, case: &Summary) -> Result<(), NoMemory>
    requires none { fields_of row.old ≡ [] }
    requires partial { partial_of row.old ≡ [] }
    ensures fields { OnOk result (fields_of row.new ≡ case.now.name ∷ (map decimal (counts_of case.now.locals) ++ (ended case.now.ending).0 ∷ [])) }
    ensures name { OnOk result (IsName case.now.name) }
    ensures digits { OnOk result (All IsBoundedDecimal (counts_of case.now.locals)) }
{
    row.push_field(case.name.bytes())?;
    push_counts(alloc, row, case.locals.as_slice())?;
    row.push_field(case_ended(case.ending).0.as_bytes())?;
    Ok(())
}

fn add_row(alloc: Global, writer: &mut Writer<Vec<u8>>, case: &Summary) -> Result<(), NoMemory>
    requires { IsBetweenRecords writer.old }
    ensures between { OnOk result (IsBetweenRecords writer.new) }
    ensures written { OnOk result (written_by writer.new ≡ written_by writer.old ++ row_line case.now) }
{
    let mut row = ByteRecord::new(alloc);
    push_fields(alloc, &mut row, case)?;
    match writer.write_byte_record(&row) {
        Ok(()) => Ok(()),
        Err(_) => Err(NoMemory),
    }
}

fn fresh(alloc: Global) -> Writer<Vec<u8>>
    ensures between { IsBetweenRecords result }
    ensures empty { written_by result ≡ [] }
{
    WriterBuilder::new().from_writer(Vec::new(alloc))
}

fn whole(writer: Writer<Vec<u8>>) -> Result<Vec<u8>, NoMemory>
    ensures { IfOk result (λ v. v.items ≡ written_by writer) }
{
    match writer.into_inner() {
        Ok(text) => Ok(text),
        Err(_) => Err(NoMemory),
    }
}

fn started(alloc: Global) -> Result<Writer<Vec<u8>>, NoMemory>
    ensures { IfOk result IsStarted }
{
    let mut writer = fresh(alloc);
    let header: [&[u8]; 8] = [
        b"testcase",
        b"components",
        b"none",
        b"pass",
        b"inconc",
        b"fail",
        b"error",
        b"verdict",
    ];
    match writer.write_fields(&header) {
        Ok(()) => Ok(writer),
        Err(_) => Err(NoMemory),
    }
}

/// The CSV report of these test cases: a header, and a record for each, with how many components it has, how many of them
/// have each local verdict, and how it ended.
pub fn csv_report(alloc: Global, cases: &[Summary]) -> Result<Vec<u8>, NoMemory>
    ensures { IfOk result (λ v. v.items ≡ csv_of cases.now) }
{
    let mut writer = started(alloc)?;
    for case in cases {
        add_row(alloc, &mut writer, case)?;
    }
    whole(writer)
}

/// The header of the CSV report.
pub(crate) fn csv_header(alloc: Global) -> Result<Vec<u8>, NoMemory>
    ensures { IfOk result (λ v. v.items ≡ columns_text) }
{
    whole(started(alloc)?)
}

/// The line of a finished test case.
pub(crate) fn case_row(alloc: Global, case: &Finished) -> Result<Vec<u8>, NoMemory>
    ensures { IfOk result (λ v. v.items ≡ row_line (case_summary case.now)) }
{
    let summary = summary_of_case(alloc, case)?;
    let mut writer = fresh(alloc);
    add_row(alloc, &mut writer, &summary)?;
    whole(writer)
}

fn csv_of_results(alloc: Global, results: &Results) -> Result<Vec<u8>, NoMemory>
    ensures { IfOk result (λ v. v.items ≡ csv_of (map case_summary results.now.finished)) }
{
    let cases = summaries_of_cases(alloc, results.finished.as_slice())?;
    csv_report(alloc, cases.as_slice())
}

/// Writes the CSV report of the results of a campaign: a header, and a record for each finished test case in order. The text
/// is made whole before anything is written.
pub fn write_csv<W: Write>(alloc: Global, results: &Results, writer: &mut W) -> Result<(), OutFault>
    ensures all { OnOk result (Appends (W.contents writer.old) (W.contents writer.new) (csv_of (map case_summary results.now.finished))) }
    ensures part { IfErr result (LeavesPrefix (W.contents writer.old) (W.contents writer.new) (csv_of (map case_summary results.now.finished))) }
{
    let text = csv_of_results(alloc, results)?;
    write_made(writer, text.as_slice())
}
