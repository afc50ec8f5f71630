// Errors and notices as a server tells them.
use crate::fault::Fault;
use crate::shown::Shown;
use crate::wire;
use crate::wire::Fields;
use std::alloc::Global;
use std::fmt;

/// The fields of an ErrorResponse or a NoticeResponse that are shown (PostgreSQL manual: Error and
/// Notice Message Fields).
#[derive(Debug, Drop)]
pub struct ServerReport {
    /// ERROR, FATAL or PANIC, and of a notice WARNING and others.
    pub severity: String,
    /// The SQLSTATE code.
    pub code: String,
    /// What is the matter.
    pub message: String,
}

impl fmt::Display for ServerReport {
    fn fmt<W: fmt::Write>(&self, f: &mut fmt::Formatter<W>) -> fmt::Result {
        let severity = Shown(self.severity.as_str());
        let code = Shown(self.code.as_str());
        let message = Shown(self.message.as_str());
        write!(f, "{severity} {code}: {message}")
    }
}

/// Reads the fields of an ErrorResponse. Bytes that are not UTF-8 are shown as U+FFFD.
pub fn read_report(alloc: Global, body: &[u8]) -> Result<ServerReport, Fault> {
    let mut report = ServerReport {
        severity: String::new(alloc),
        code: String::new(alloc),
        message: String::new(alloc),
    };
    let mut fields = Fields::new(body);
    for _ in 0..body.len() {
        let kind = fields.byte()?;
        if kind == 0 {
            break;
        }
        let text = fields.zero_ended()?;
        let text = String::from_utf8_lossy(alloc, text)?;
        match kind {
            b'S' => report.severity = text,
            b'C' => report.code = text,
            b'M' => report.message = text,
            _ => {}
        }
    }
    Ok(report)
}

/// A report as a server sends it: an ErrorResponse, whose tag is `E`, or a NoticeResponse, whose tag is `N`.
pub fn write_report(
    alloc: Global,
    tag: u8,
    severity: &str,
    code: &str,
    message: &str,
) -> Result<Vec<u8>, Fault> {
    let mut body = Vec::new(alloc);
    for (kind, text) in [(b'S', severity), (b'C', code), (b'M', message)] {
        body.push(kind)?;
        wire::push_zero_ended(&mut body, text)?;
    }
    body.push(0)?;
    wire::frame(alloc, tag, body.as_slice())
}
