//! What a message says, in words.

use crate::report::report_text;
use case_words::session_text;
use dialect::Content;
use std::alloc::{AllocError, Global};

/// The words of what a message says; of an order or a report that the dialect refuses, its fault.
pub fn content_text(alloc: Global, content: &Content<'_>) -> Result<String, AllocError> {
    match content {
        Content::Session(says) => session_text(alloc, says),
        Content::Order(Ok(leg)) => format!(in alloc; "order {leg}"),
        Content::Order(Err(fault)) => format!(in alloc; "order refused {fault}"),
        Content::ExecutionReport(Ok(report)) => {
            format!(in alloc; "report {}", report_text(alloc, report)?)
        }
        Content::ExecutionReport(Err(fault)) => format!(in alloc; "report refused {fault}"),
        Content::Other => format!(in alloc; "other"),
    }
}
