//! The methods of requests.

ghost use Rattle.std.specs.Prelude.{◌≡◌};
ghost use Rattle.office_wire.specs.Lengths.{method_of, needs_length};

/// The method of a request (RFC 9110 section 9).
#[derive(Clone, Copy, PartialEq, Eq)]
pub(crate) enum Method {
    Get,
    Post,
    /// There is no route for it either, and no response to it has a body (section 9.3.2).
    Head,
    /// Another one, for which there is no route.
    Other,
}

impl Method {
    /// The method of a text, which is read only as it is written.
    pub(crate) fn read(text: &[u8]) -> Method
        ensures { result ≡ method_of text.now }
    {
        if text == http::Method::POST.as_str().as_bytes() {
            Method::Post
        } else if text == http::Method::GET.as_str().as_bytes() {
            Method::Get
        } else if text == http::Method::HEAD.as_str().as_bytes() {
            Method::Head
        } else {
            Method::Other
        }
    }

    /// Whether a request has to state the length of its body.
    pub(crate) const fn needs_length(self) -> bool
        ensures { result ≡ needs_length self }
    {
        match self {
            Method::Post => true,
            Method::Get | Method::Head | Method::Other => false,
        }
    }
}
