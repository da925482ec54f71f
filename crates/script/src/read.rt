// The reading of a line.
ghost use Rattle.std.specs.Prelude.{◌≡◌, IfOk, IsUtf8};

use crate::line::{Call, Later, Line, LineError, Setting};
use crate::list::narrowed;
use crate::words::Words;
use std::alloc::Global;

// A line's setting, if its first word is that of one.
fn setting(heap: Global, name: &str, words: &mut Words<'_>) -> Result<Option<Setting>, LineError> {
    Ok(Some(match name {
        "image" => Setting::Image(words.numbers(heap)?),
        "bits" => Setting::Bits(words.numbers(heap)?),
        "map" => {
            let base = words.number()?;
            let pages = words.numbers(heap)?;
            Setting::Map(base, narrowed(heap, pages.as_slice())?)
        }
        "inject" => Setting::Inject(words.numbers(heap)?),
        "cap" => Setting::Cap(words.only_number()?),
        "retry" => Setting::Retry(words.only_number()?),
        "script" => Setting::Script(words.numbers(heap)?),
        _ => return Ok(None),
    }))
}

// A line's call, if its first word is that of one.
fn call(heap: Global, name: &str, words: &mut Words<'_>) -> Result<Option<Call>, LineError> {
    Ok(Some(match name {
        "size" => Call::Size(words.only_range()?),
        "sizes" => Call::Sizes(words.ranges(heap)?),
        "build" => Call::Build(words.only_range()?),
        "find" => Call::Find(words.hex_bytes(heap)?),
        "cover" => {
            words.end()?;
            Call::Cover
        }
        "walk" => Call::Walk(words.only_range()?),
        "decode" => Call::Decode(words.only_number()?),
        _ => return bitmap_call(name, words),
    }))
}

fn bitmap_call(name: &str, words: &mut Words<'_>) -> Result<Option<Call>, LineError> {
    Ok(Some(match name {
        "fset" => Call::FindSet(words.only_range()?),
        "fzero" => Call::FindZero(words.only_range()?),
        "bany" => Call::HasSet(words.only_range()?),
        "bset" => Call::SetRange(words.only_range()?),
        "bclear" => Call::ClearRange(words.only_range()?),
        "bcount" => {
            words.end()?;
            Call::CountMarks
        }
        "bcap" => {
            words.end()?;
            Call::Capacity
        }
        _ => return Ok(None),
    }))
}

// A line's call of the table, if its first word is that of one. Its words have to be those of the call.
fn later_call(heap: Global, name: &str, words: &mut Words<'_>) -> Result<Option<Later>, LineError> {
    let later = match name {
        "reg" => Later::Register,
        "done" => Later::Done,
        "new" => Later::New,
        "accept" => Later::Accept,
        "claim" => Later::Claim,
        "settle" => Later::Settle,
        "restore" => Later::Restore,
        "count" => Later::Count,
        "pending" => Later::Pending,
        "accepted" => Later::Accepted,
        _ => return Ok(None),
    };
    match later {
        Later::Done | Later::Count => words.end()?,
        Later::Settle | Later::Restore => {
            words.only_number()?;
        }
        Later::New => {
            words.ranges(heap)?;
        }
        _ => {
            words.only_range()?;
        }
    }
    Ok(Some(later))
}

// The name of a case, as it stands behind the first word.
fn case_name(text: &str) -> Result<&str, LineError> {
    let name = text.trim_ascii().strip_prefix("case").unwrap_or("");
    let name = name.trim_ascii();
    if name.is_empty() {
        return Err(LineError::TooFewWords);
    }
    Ok(name)
}

// What a line says.
pub fn read<'a>(heap: Global, line: &'a [u8]) -> Result<Line<'a>, LineError>
    ensures text { IfOk result (λ _. IsUtf8 line.now) }
    ensures no_text { ¬ (IsUtf8 line.now) → result ≡ Err LineError.NotText }
{
    let text = str::from_utf8(line).map_err(|_| LineError::NotText)?;
    let mut words = Words::new(text);
    let Some(name) = words.first() else {
        return Ok(Line::Nothing);
    };
    if name.starts_with('#') {
        return Ok(Line::Nothing);
    }
    if name == "case" {
        return Ok(Line::Case(case_name(text)?));
    }
    if name == "end" {
        words.end()?;
        return Ok(Line::End);
    }
    if let Some(setting) = setting(heap, name, &mut words)? {
        return Ok(Line::Setting(setting));
    }
    if let Some(call) = call(heap, name, &mut words)? {
        return Ok(Line::Call(call));
    }
    if let Some(later) = later_call(heap, name, &mut words)? {
        return Ok(Line::Call(Call::Later(later)));
    }
    Err(LineError::UnknownWord)
}
