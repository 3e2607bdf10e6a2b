//! Reports in their printed form, read record by record: each record is printed again and compared with the text, so
//! that what finds it there needs no proof.

ghost use Rattle.std.specs.Prelude.{◌≡◌, ◌++◌, ◌<◌, false, [], length, IfOk, IfSome, IsTrue, IsUtf8};
ghost use Rattle.net_check.specs.Network.{network};
ghost use Rattle.report_forms.specs.Fits.{RecordFits};
ghost use Rattle.path_report.specs.Printed.{BeginsWith, BeginsWithAll, IsFrame, IsNext, IsOpened, IsPrinted, begun};

use crate::decoder::Decoder;
use crate::lasting::LastRecord;
use crate::report::{ReportFault, read_whole};
use crate::scanned::Direct;
use crate::scanner::{Miss, Scanner};
use kept_texts::{OfNet, Pieces};
use net_check::Net;
use path_records::Record;
use record_text::laws::pieces_join;
use record_text::{Report, head_text, tail_text};
use report_names::NetNames;
use report_shape::{Part, ShapeFault, read_value};
use sn_width::NoMemory;
use std::alloc::Global;
use std::marker::{Brand, Model};

/// More bytes than stand before and behind the records of a printed report.
const FRAME: usize = 256;

/// Where a scan of JSON is.
#[derive(Clone, Copy)]
enum Mode {
    Between,
    Text,
    /// Behind a backslash in a text.
    Escape,
}

/// How many braces are open, and where the scan is.
#[derive(Clone, Copy)]
struct Scan {
    open: usize,
    mode: Mode,
}

impl Scan {
    /// The scan behind one byte more.
    fn after(self, byte: u8) -> Scan {
        let Scan { open, mode } = self;
        match (mode, byte) {
            (Mode::Between, b'"') => Scan {
                open,
                mode: Mode::Text,
            },
            (Mode::Between, b'{') => Scan {
                open: open.saturating_add(1),
                mode,
            },
            (Mode::Between, b'}') => Scan {
                open: open.saturating_sub(1),
                mode,
            },
            (Mode::Text, b'"') => Scan {
                open,
                mode: Mode::Between,
            },
            (Mode::Text, b'\\') => Scan {
                open,
                mode: Mode::Escape,
            },
            (Mode::Escape, _) => Scan {
                open,
                mode: Mode::Text,
            },
            _ => self,
        }
    }
}

/// How many bytes there are up to the brace that closes the first object.
fn object_end(text: &[u8]) -> Option<usize>
    ensures { IfSome result (λ end. end < length text.now) }
{
    let mut scan = Scan {
        open: 0,
        mode: Mode::Between,
    };
    for (place, byte) in text.iter().enumerate() {
        scan = scan.after(*byte);
        if *byte == b'}' && scan.open == 0 {
            return Some(place);
        }
    }
    None
}

/// The text up to the brace that closes the first object, and what is behind it.
fn cut_object(text: &[u8]) -> Option<(&[u8], &[u8])> {
    let end = object_end(text)?;
    text.split_at_checked(end + 1)
}

/// What stands before the records of a report, their texts, and what stands behind them.
fn cut_report(bytes: &[u8]) -> Option<(&[u8], &[u8], &[u8])>
    ensures { IfSome result (λ cut. bytes.now ≡ cut.0.now ++ (cut.1.now ++ cut.2.now)) }
{
    let start = bytes.iter().position(|byte| *byte == b'[')?;
    let (head, rest) = bytes.split_at_checked(start + 1)?;
    let end = rest.iter().rposition(|byte| *byte == b']')?;
    let (records, tail) = rest.split_at_checked(end)?;
    Some((head, records, tail))
}

/// The report without records that has this head and this tail.
fn frame(alloc: Global, net: &Net, head: &[u8], tail: &[u8]) -> Result<Option<Report>, NoMemory>
    ensures { IfOk result (λ found. IfSome found (λ report. IsFrame (network net.now) head.now tail.now report)) }
{
    if head.len() >= FRAME || tail.len() >= FRAME {
        return Ok(None);
    }
    let mut text = head.to_vec(alloc)?;
    text.extend_from_slice(tail)?;
    let report = match read_whole(alloc, net, &text) {
        Ok(report) => report,
        Err(ReportFault::NoMemory) => return Err(NoMemory),
        Err(_) => return Ok(None),
    };
    let before = head_text(alloc, report.cases, report.hops, report.limit)?;
    let behind = tail_text(alloc, report.refuted, report.complete)?;
    if before.as_bytes() == head && behind.as_bytes() == tail {
        Ok(Some(report))
    } else {
        Ok(None)
    }
}

/// The record that the text begins with, by its value; a comma may stand before it.
fn by_value(alloc: Global, net: &Net, text: &[u8]) -> Result<Option<Record>, NoMemory>
    ensures { IfOk result (λ found. IfSome found (λ item. RecordFits (network net.now) item)) }
{
    let names = NetNames { net };
    let decoder = Decoder { net };
    let Some((front, _)) = cut_object(text) else {
        return Ok(None);
    };
    match read_value(alloc, &names, Part::Record, front) {
        Ok(value) => Ok(Some(decoder.record(alloc, &value)?)),
        Err(ShapeFault::NoMemory) => Err(NoMemory),
        Err(_) => Ok(None),
    }
}

/// The record that the text begins with, read as it is printed, and else by its value.
fn some_record<'b, N: OfNet>(
    alloc: Global,
    net: &Net,
    last: &mut LastRecord<'b, N>,
    text: &'b [u8],
) -> Result<Option<Record>, NoMemory>
    requires { network net.now ≡ N.net }
    ensures { IfOk result (λ found. IfSome found (λ item. RecordFits (network net.now) item)) }
{
    let direct = Direct { alloc, net };
    match direct.record(&mut Scanner::new(text), last) {
        Ok(item) => Ok(Some(item)),
        Err(Miss::NoMemory) => Err(NoMemory),
        Err(Miss::Form) => by_value(alloc, net, text),
    }
}

/// The first bytes, and what is behind them.
fn cut(text: &[u8], count: usize) -> Option<(&[u8], &[u8])>
    ensures whole { IfSome result (λ cut. text.now ≡ cut.0.now ++ cut.1.now) }
    ensures shorter { IfSome result (λ cut. 0 < count → length cut.1.now < length text.now) }
{
    text.split_at_checked(count)
}

/// What is behind the piece that the text begins with.
fn behind<'b>(text: &'b [u8], piece: &[u8]) -> Option<&'b [u8]>
    ensures whole { IfSome result (λ rest. text.now ≡ piece.now ++ rest.now) }
    ensures shorter { IfSome result (λ rest. length rest.now < length text.now) }
{
    let (front, rest) = cut(text, piece.len())?;
    if !piece.is_empty() && front == piece {
        Some(rest)
    } else {
        None
    }
}

/// The record that the text begins with, and what is behind it, where it is printed so.
fn first_record<'b, N: OfNet>(
    alloc: Global,
    net: &Net,
    pieces: &mut Pieces<'_, N>,
    last: &mut LastRecord<'b, N>,
    later: bool,
    text: &'b [u8],
) -> Result<Option<(Record, &'b [u8])>, NoMemory>
    requires { network net.now ≡ N.net }
    ensures begins { IfOk result (λ found. IfSome found
        (λ first. BeginsWith N.net later first.0 text.now first.1.now)) }
    ensures shorter { IfOk result (λ found. IfSome found (λ first. length first.1.now < length text.now)) }
{
    let bare = text.strip_prefix(b",").unwrap_or(text);
    let Some(item) = some_record(alloc, net, last, bare)? else {
        return Ok(None);
    };
    pieces.write(later, &item)?;
    match behind(text, pieces.text().as_bytes()) {
        Some(rest) => Ok(Some((item, rest))),
        None => Ok(None),
    }
}

/// The records of a report in its printed form, which are read one after another.
#[derive(Drop)]
pub struct PrintedRecords<'a, N: OfNet> {
    alloc: Global,
    net: &'a Net,
    pieces: Pieces<'a, N>,
    last: LastRecord<'a, N>,
    /// Whether a record was read.
    later: bool,
    /// What is not read yet.
    left: &'a [u8],
}

impl<'a, N: OfNet> Model for PrintedRecords<'a, N> {
    ghost use Rattle.std.specs.Prelude.{◌≡◌};
    ghost use Rattle.net_check.specs.Network.{network};
    ghost use Rattle.path_report.specs.Printed.{Reading};

    ghost Value = { Reading };

    ghost view = { λ records. record { later = records.later; left = records.left.now } };

    ghost invariant = { λ records. network records.net.now ≡ N.net };
}

impl<'a, N: OfNet> PrintedRecords<'a, N> {
    /// The records of this text, none of which is read.
    fn new(alloc: Global, net: &'a Net, text: &'a [u8]) -> PrintedRecords<'a, N>
        requires { network net.now ≡ N.net }
        ensures { result ≡ begun text.now }
    {
        PrintedRecords {
            alloc,
            net,
            pieces: Pieces::new(alloc, net),
            last: LastRecord::new(alloc),
            later: false,
            left: text,
        }
    }

    /// The next record; None where the text does not begin with one that is printed so. Behind an error nothing is said of
    /// what is left.
    pub fn next(&mut self) -> Result<Option<Record>, NoMemory>
        ensures { IfOk result (λ found. IsNext N.net self.old found self.new) }
    {
        match first_record(
            self.alloc,
            self.net,
            &mut self.pieces,
            &mut self.last,
            self.later,
            self.left,
        )? {
            Some((item, rest)) => {
                self.later = true;
                self.left = rest;
                Ok(Some(item))
            }
            None => Ok(None),
        }
    }

    /// Whether no text is left.
    pub fn is_over(&self) -> bool
        ensures { IsTrue result → self.now.left ≡ [] }
    {
        self.left.is_empty()
    }
}

/// Whether the bytes are text.
fn is_text(bytes: &[u8]) -> bool
    ensures { IsTrue result → IsUtf8 bytes.now }
{
    match str::from_utf8(bytes) {
        Ok(_) => true,
        Err(_) => false,
    }
}

/// The same of bytes that are text.
fn open_text<'a, N: OfNet>(
    alloc: Global,
    net: &'a Net,
    bytes: &'a [u8],
) -> Result<Option<(Report, PrintedRecords<'a, N>)>, NoMemory>
    requires net { network net.now ≡ N.net }
    requires utf8 { IsUtf8 bytes.now }
    ensures { IfOk result (λ found. IfSome found (λ opened. IsOpened N.net bytes.now opened.0 opened.1)) }
{
    let Some((head, text, tail)) = cut_report(bytes) else {
        return Ok(None);
    };
    match frame(alloc, net, head, tail)? {
        Some(frame) => Ok(Some((frame, PrintedRecords::new(alloc, net, text)))),
        None => Ok(None),
    }
}

/// What stands around the records of a report in its printed form, as a report without records, and those records; None also
/// where that form is not seen.
pub fn open_printed<'a, N: OfNet>(
    alloc: Global,
    net: &'a Net,
    bytes: &'a [u8],
) -> Result<Option<(Report, PrintedRecords<'a, N>)>, NoMemory>
    requires { network net.now ≡ N.net }
    ensures { IfOk result (λ found. IfSome found (λ opened. IsOpened N.net bytes.now opened.0 opened.1)) }
{
    if is_text(bytes) {
        open_text(alloc, net, bytes)
    } else {
        Ok(None)
    }
}

/// All of the records; None where the text is not their printed form.
fn all_of<N: OfNet>(
    alloc: Global,
    records: &mut PrintedRecords<'_, N>,
) -> Result<Option<Vec<Record>>, NoMemory>
    requires { records.old.later ≡ false }
    ensures { IfOk result (λ found. IfSome found (λ items. BeginsWithAll N.net items.items records.old.left [])) }
{
    let mut items = Vec::new(alloc);
    while let Some(item) = records.next()? {
        items.push(item)?;
    }
    if records.is_over() {
        Ok(Some(items))
    } else {
        Ok(None)
    }
}

/// The report whose printed form the bytes are; None also where that is not seen.
fn printed_report<N: OfNet>(
    alloc: Global,
    net: &Net,
    bytes: &[u8],
) -> Result<Option<Report>, NoMemory>
    requires { network net.now ≡ N.net }
    ensures { IfOk result (λ found. IfSome found (λ report. IsPrinted N.net bytes.now report)) }
{
    pieces_join();
    let Some((frame, mut records)) = open_printed::<N>(alloc, net, bytes)? else {
        return Ok(None);
    };
    match all_of(alloc, &mut records)? {
        Some(records) => Ok(Some(Report {
            cases: frame.cases,
            hops: frame.hops,
            limit: frame.limit,
            records,
            refuted: frame.refuted,
            complete: frame.complete,
        })),
        None => Ok(None),
    }
}

/// The same, where the net of the records is that of the report.
pub(crate) fn read_printed(
    alloc: Global,
    net: &Net,
    bytes: &[u8],
) -> Result<Option<Report>, NoMemory>
    ensures { IfOk result (λ found. IfSome found (λ report. IsPrinted (network net.now) bytes.now report)) }
{
    printed_report::<Brand>(alloc, net, bytes)
}
