//! What is answered to a request for the state of a run.

use crate::counts::Counts;
use crate::metrics::metrics;
use bytes::{BufMut, Bytes};
use http::{HeaderValue, Method, Request, StatusCode, header};
use http_server::{Response, Service};
use std::alloc::{AllocError, Global};
use std::sync::Arc;

/// A loop that turns was seen to look up within so many seconds.
const TURNS: u64 = 10;

/// A state that was handed over is told for so many seconds.
const FRESH: u64 = 5;

/// A state of the run that was handed over so many seconds ago.
#[derive(Drop)]
pub(crate) struct Handed {
    pub text: String,
    pub age: u64,
}

/// Answers a GET of `/live`, `/ready`, `/metrics` and `/state`, one to a connection.
#[derive(Drop)]
pub(crate) struct Desk {
    pub alloc: Global,
    pub counts: Arc<Counts, Global>,
    /// So many seconds ago the loop was seen to look up.
    pub quiet: u64,
    /// The state that was handed over last.
    pub handed: Option<Handed>,
}

/// Adds a text of a kind.
fn add(response: &mut Response, text: &str, kind: HeaderValue) -> Result<(), AllocError> {
    response.add_header(header::CONTENT_TYPE, kind)?;
    response.body.put_slice(text.as_bytes())
}

impl Desk {
    /// Whether the loop turns: it looked up, which it does once each door listens, and not too long ago.
    fn turns(&self) -> bool {
        self.counts.looks() > 0 && self.quiet <= TURNS
    }

    /// What doesn't let the run be live, or ready.
    fn lack(&self, needs_sync: bool) -> Option<&'static str> {
        if !self.turns() {
            return Some("the event loop doesn't turn\n");
        }
        if needs_sync && !self.counts.is_synced() {
            return Some("workloads and policies weren't told yet\n");
        }
        None
    }

    /// 200 with this text, or 503 with what lacks.
    fn add_state(
        &self,
        response: &mut Response,
        needs_sync: bool,
        text: &'static str,
    ) -> Result<(), AllocError> {
        let kind = HeaderValue::from_static("text/plain");
        let Some(lack) = self.lack(needs_sync) else {
            return add(response, text, kind);
        };
        response.status = StatusCode::SERVICE_UNAVAILABLE;
        add(response, lack, kind)
    }

    fn add_metrics(&self, response: &mut Response) -> Result<(), AllocError> {
        let text = metrics(self.alloc, &self.counts, self.quiet)?;
        let kind = HeaderValue::from_static("text/plain; version=0.0.4; charset=utf-8");
        add(response, text.as_str(), kind)
    }

    /// 200 with the state, where it was handed over not too long ago. Else 503, since the loop hands it over at its next tick.
    fn add_handed(&self, response: &mut Response) -> Result<(), AllocError> {
        self.counts.ask_state();
        match &self.handed {
            Some(handed) if handed.age <= FRESH => {
                let kind = HeaderValue::from_static("application/json");
                add(response, handed.text.as_str(), kind)
            }
            _ => {
                response.status = StatusCode::SERVICE_UNAVAILABLE;
                response.add_header(header::RETRY_AFTER, HeaderValue::from_static("1"))?;
                let kind = HeaderValue::from_static("text/plain");
                add(response, "the state is there at the next tick\n", kind)
            }
        }
    }

    fn answer(&self, request: &Request<Bytes>, response: &mut Response) -> Result<(), AllocError> {
        response.add_header(header::CONNECTION, HeaderValue::from_static("close"))?;
        if *request.method() != Method::GET {
            response.status = StatusCode::METHOD_NOT_ALLOWED;
            return response.add_header(header::ALLOW, HeaderValue::from_static("GET"));
        }
        match request.uri().path() {
            "/live" => self.add_state(response, false, "live\n"),
            "/ready" => self.add_state(response, true, "ready\n"),
            "/metrics" => self.add_metrics(response),
            "/state" => self.add_handed(response),
            _ => {
                response.status = StatusCode::NOT_FOUND;
                Ok(())
            }
        }
    }
}

impl Service for Desk {
    ghost use Rattle.std.specs.Prelude.{⊤};

    ghost answers = { λ before request response after. ⊤ };

    fn call(
        &mut self,
        request: &Request<Bytes>,
        response: &mut Response,
    ) -> Result<(), AllocError> {
        self.answer(request, response)
    }
}
