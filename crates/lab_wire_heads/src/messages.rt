//! A reply as an HTTP/1.1 message.

ghost use Rattle.std.specs.Prelude.{◌≡◌, IfOk, string_bytes};
ghost use Rattle.lab_wire_heads.specs.Messages.{date_field, message_text};

use crate::dates::http_date;
use http::StatusCode;
use lab_forms_texts::{Moment, OutOfMemory};
use std::alloc::Global;

/// Returns a whole message: its status, the Date field if a moment is given, the type of its body,
/// further field lines, each with its end, and its body.
///
/// # Errors
/// Memory ran out.
pub fn message(
    alloc: Global,
    status: StatusCode,
    moment: Option<Moment>,
    media_type: &str,
    further: &str,
    body: &[u8],
) -> Result<Vec<u8>, OutOfMemory>
    ensures { IfOk result (λ bytes. bytes.items ≡ message_text (record {
      status = status;
      moment = moment;
      media_type = media_type.now;
      further = further.now;
      body = body.now;
    })) }
{
    let date = date_line(alloc, moment)?;
    let length = body.len();
    let head = format!(in alloc;
        "HTTP/1.1 {status}\r\n{date}Content-Type: {media_type}\r\n\
        Content-Length: {length}\r\nConnection: close\r\n{further}\r\n"
    )?;
    let mut bytes = head.into_bytes();
    bytes.extend_from_slice(body)?;
    Ok(bytes)
}

// The Date field of a moment, if a moment is given.
fn date_line(alloc: Global, moment: Option<Moment>) -> Result<String, OutOfMemory>
    ensures { IfOk result (λ line. string_bytes line ≡ date_field moment) }
{
    let Some(moment) = moment else {
        return Ok(String::new(alloc));
    };
    let date = http_date(moment);
    Ok(format!(in alloc; "Date: {date}\r\n")?)
}
