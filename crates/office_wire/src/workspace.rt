//! What serving takes once, and not for each stream.

ghost use Rattle.std.specs.Prelude.{◌≡◌, vec_len};

use crate::head::SPANS;
use crate::request_buffer::RequestBuffer;
use crate::response_buffer::ResponseBuffer;
use crate::route::Routes;
use httparse::spans::{EMPTY_HEADER_SPAN, HeaderSpan};
use std::alloc::{AllocError, Global};

/// The routes, the memory for a request, and that for a response.
#[derive(Drop)]
pub(crate) struct Workspace {
    pub(crate) routes: Routes,
    pub(crate) requests: RequestBuffer,
    pub(crate) spans: Vec<HeaderSpan>,
    pub(crate) out: ResponseBuffer,
    ghost spans_are: { vec_len spans ≡ 5462 },
}

impl Workspace {
    /// Takes the routes and the memory. The only error is out of memory.
    fn new(alloc: Global) -> Result<Workspace, AllocError> {
        let Ok(routes) = Routes::new(alloc) else {
            return Err(AllocError);
        };
        Ok(Workspace {
            routes,
            requests: RequestBuffer::new(alloc)?,
            spans: vec![in alloc; EMPTY_HEADER_SPAN; SPANS]?,
            out: ResponseBuffer::new(alloc)?,
        })
    }

    /// Lets the memory of a long response go.
    pub(crate) fn drop_response(&mut self, alloc: Global) {
        if let Ok(out) = ResponseBuffer::new(alloc) {
            self.out = out;
        }
    }
}

/// Makes the workspace if it is `None` and there is memory for it.
pub(crate) fn make_workspace(alloc: Global, workspace: &mut Option<Workspace>) {
    if workspace.is_none() {
        *workspace = Workspace::new(alloc).ok();
    }
}
