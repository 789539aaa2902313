//! What a client knows of one of its requests.

ghost use Rattle.std.specs.Prelude.{◌≡◌, ◌++◌, [], None, option_to_list};
ghost use Rattle.turn_client_api.specs.RequestViews.{view_with};

use crate::grant::Purpose;

/// What a client knows of a request with some transaction ID: a caller that wants to know which of
/// its requests a response answers asks before it passes the response in, since that ends the request.
#[derive(Clone, Copy, Debug, PartialEq, Eq)]
pub struct RequestView {
    /// What the request was made for, or `None` if the client lists no request with this ID.
    pub first: Option<Purpose>,
    /// The second of two purposes: a CHANNEL_BIND may also be for a permission (RFC 8656, section
    /// 12.2), and a REFRESH that deletes is for an allocation of each address family.
    pub second: Option<Purpose>,
    /// How often the request was retransmitted (RFC 8489, section 6.2.1), or `None` if it does not
    /// await a response.
    pub resends: Option<u32>,
}

impl RequestView {
    /// A request with at most these purposes, in their order.
    pub fn new(first: Option<Purpose>, second: Option<Purpose>, resends: Option<u32>) -> RequestView
        ensures { result ≡ view_with (option_to_list first ++ option_to_list second) resends }
    {
        match first {
            Some(_) => RequestView {
                first,
                second,
                resends,
            },
            None => RequestView {
                first: second,
                second: None,
                resends,
            },
        }
    }

    /// A request of which a client knows nothing.
    pub fn none() -> RequestView
        ensures { result ≡ view_with [] None }
    {
        RequestView {
            first: None,
            second: None,
            resends: None,
        }
    }
}
