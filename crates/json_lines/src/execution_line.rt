//! An execution, in JSON.

ghost use Rattle.desk_json.specs.Executions.{execution_json};
ghost use Rattle.json_lines.specs.Lines.{unbooked_line};

use crate::line::Line;
use desk_executions::{Execution, UnbookedStatus};
use desk_json::{execution_json, unbooked_json};
use std::alloc::{AllocError, Global};

impl Line for Execution {
    ghost json = { execution_json };

    fn json(&self, alloc: Global) -> Result<String, AllocError> {
        execution_json(alloc, self)
    }
}

impl Line for UnbookedStatus {
    ghost json = { unbooked_line };

    fn json(&self, alloc: Global) -> Result<String, AllocError> {
        let venue = &self.venue;
        let counts = unbooked_json(alloc, &self.counts)?;
        format!(in alloc; "{{\"status\":{{\"unbooked\":\"{venue}\",\"counts\":{counts}}}}}")
    }
}
