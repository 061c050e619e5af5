//! Prints what is asked of the words of a plant.
ghost use Rattle.std.specs.Prelude.{◌≡◌, ◌≢◌, ◌<◌, ◌≤◌, ◌⊎◌, codes, length};
ghost use Rattle.std.specs.Io.KnownBytes.{Appends};
ghost use Rattle.text_io.specs.Input.{TakesAtMost};
ghost use Rattle.text_io.specs.Output.{WrotePrefix};
ghost use Rattle.plan_header.specs.PlantHeaders.{plant_header_text};
ghost use Rattle.plan_app.specs.Failed.{FailsWords, FailsWordsIn, WroteAsked, WroteDocumentFault};
ghost use Rattle.plan_app.specs.Failed.{WroteDrawing, WroteFault, WroteListing, WroteUnread};
ghost use Rattle.plan_app.specs.Failed.{WroteWords};
ghost use Rattle.plan_app.specs.Input.{byte_limit, max_bytes_read};
ghost use Rattle.plan_app.specs.Served.{WritesAsked, WritesDrawing, WritesListing, WritesPlant};
ghost use Rattle.plan_app.specs.Served.{WritesWords, WritesWordsIn};

use crate::input::{MAX_BYTES, plan_length};
use crate::on_words::{Listing, listing_of};
use crate::plant_picture::plant_drawing_of;
use crate::request::PlantRequest;
use crate::serve::{fail_to_read, print_warning, read_input, refuse_document};
use plan_document::{ProgrammedPlan, plant_of};
use plan_header::plant_header_of;
use program_shell::{Exit, fail, print};
use std::alloc::{AllocError, Global};
use std::io::{Read, Write};

/// Reads a plant and a script after it, and prints what is asked of the plant's words.
pub(crate) fn words_input<R: Read, W: Write>(
    alloc: Global,
    request: PlantRequest,
    reader: &mut R,
    writer: &mut W,
) -> Exit
    ensures status { result ≢ Exit.Refused }
    ensures words { result ≡ Exit.Well → WritesWords request (R.remaining reader.old)
        (W.contents writer.old) (W.contents writer.new) }
    ensures failed { result ≡ Exit.Failed → FailsWords request (R.remaining reader.old)
        (W.contents writer.old) (W.contents writer.new) }
    ensures read { TakesAtMost (R.remaining reader.old) (R.remaining reader.new) max_bytes_read }
{
    match read_input(alloc, reader) {
        Ok(bytes) => words_bytes(alloc, request, bytes.as_slice(), writer),
        Err(fault) => fail_to_read(writer, fault),
    }
}

fn words_bytes<W: Write>(alloc: Global, request: PlantRequest, bytes: &[u8], writer: &mut W) -> Exit
    ensures status { result ≢ Exit.Refused }
    ensures short { result ≡ Exit.Well → length bytes.now ≤ byte_limit }
    ensures long { byte_limit < length bytes.now →
        WroteFault (codes "long") (W.contents writer.old) (W.contents writer.new) }
    ensures words { result ≡ Exit.Well →
        WritesWordsIn request bytes.now (W.contents writer.old) (W.contents writer.new) }
    ensures failed { result ≡ Exit.Failed →
        FailsWordsIn request bytes.now (W.contents writer.old) (W.contents writer.new) }
{
    if bytes.len() > MAX_BYTES {
        return fail(writer, "long");
    }
    let (document, _) = bytes.split_at(plan_length(bytes));
    words_document(alloc, request, document, writer)
}

/// Prints what is asked of the words of the plant in a document.
fn words_document<W: Write>(
    alloc: Global,
    request: PlantRequest,
    document: &[u8],
    writer: &mut W,
) -> Exit
    ensures status { result ≢ Exit.Refused }
    ensures words { result ≡ Exit.Well →
        WritesPlant request document.now (W.contents writer.old) (W.contents writer.new) }
    ensures failed { result ≡ Exit.Failed →
        WroteUnread (W.contents writer.old) (W.contents writer.new)
        ⊎ (WroteDocumentFault (W.contents writer.old) (W.contents writer.new)
        ⊎ WroteWords request document.now (W.contents writer.old) (W.contents writer.new)) }
{
    match plant_of(alloc, document) {
        Ok(plant) => print_words(alloc, request, &plant.plans, writer),
        Err(fault) => refuse_document(alloc, writer, fault),
    }
}

/// Prints what is asked of words, by their plans.
fn print_words<W: Write>(
    alloc: Global,
    request: PlantRequest,
    plans: &[ProgrammedPlan],
    writer: &mut W,
) -> Exit
    requires { length plans.now ≤ 16 }
    ensures status { result ≢ Exit.Refused }
    ensures words { result ≡ Exit.Well →
        WritesAsked request plans.now (W.contents writer.old) (W.contents writer.new) }
    ensures failed { result ≡ Exit.Failed →
        WroteUnread (W.contents writer.old) (W.contents writer.new)
        ⊎ WroteAsked request plans.now (W.contents writer.old) (W.contents writer.new) }
{
    match request {
        PlantRequest::Listing => print_listing(alloc, plans, writer),
        PlantRequest::Header => print_header(alloc, plans, writer),
        PlantRequest::Draw => print_drawing(alloc, plans, writer),
    }
}

/// Prints one header of all words.
fn print_header<W: Write>(alloc: Global, plans: &[ProgrammedPlan], writer: &mut W) -> Exit
    ensures status { result ≢ Exit.Refused }
    ensures words { result ≡ Exit.Well →
        Appends (W.contents writer.old) (W.contents writer.new) (plant_header_text plans.now) }
    ensures failed { result ≡ Exit.Failed →
        WroteUnread (W.contents writer.old) (W.contents writer.new)
        ⊎ WrotePrefix (W.contents writer.old) (W.contents writer.new)
        (plant_header_text plans.now) }
{
    match plant_header_of(alloc, plans) {
        Ok(text) => print(writer, text.as_bytes()),
        Err(AllocError) => fail(writer, "memory"),
    }
}

/// Prints the picture of all words.
fn print_drawing<W: Write>(alloc: Global, plans: &[ProgrammedPlan], writer: &mut W) -> Exit
    requires { length plans.now ≤ 16 }
    ensures status { result ≢ Exit.Refused }
    ensures words { result ≡ Exit.Well →
        WritesDrawing plans.now (W.contents writer.old) (W.contents writer.new) }
    ensures failed { result ≡ Exit.Failed →
        WroteUnread (W.contents writer.old) (W.contents writer.new)
        ⊎ WroteDrawing plans.now (W.contents writer.old) (W.contents writer.new) }
{
    match plant_drawing_of(alloc, plans) {
        Ok(text) => print(writer, text.as_bytes()),
        Err(AllocError) => fail(writer, "memory"),
    }
}

/// Prints what words have, by their plans. It isn't well where no word keeps the motors of a hazard apart.
fn print_listing<W: Write>(alloc: Global, plans: &[ProgrammedPlan], writer: &mut W) -> Exit
    ensures status { result ≢ Exit.Refused }
    ensures words { result ≡ Exit.Well →
        WritesListing plans.now (W.contents writer.old) (W.contents writer.new) }
    ensures failed { result ≡ Exit.Failed →
        WroteUnread (W.contents writer.old) (W.contents writer.new)
        ⊎ WroteListing plans.now (W.contents writer.old) (W.contents writer.new) }
{
    match listing_of(alloc, plans) {
        Ok(Listing::Kept(text)) => print(writer, text.as_bytes()),
        Ok(Listing::Unkept(text)) => print_warning(writer, text.as_str()),
        Err(AllocError) => fail(writer, "memory"),
    }
}
