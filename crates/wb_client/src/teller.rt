//! What a client has yet to hear.
ghost use Rattle.std.specs.Prelude.{◌≡◌, ◌+◌, ◌<◌, ◌≤◌, ◌^◌, [], ◌∷◌, length, None, IfSome};
ghost use Rattle.wb_client.specs.Played.{hearer_of, counts_from};

use wb_script::Request;

/// What a client has yet to hear of another: the requests of that one behind the last note that was heard, and how many notes
/// it leaves before these.
#[derive(Clone, Copy)]
pub(crate) struct Teller<'a> {
    rest: &'a [Request],
    told: u64,
    ghost few: { told + length rest.now < 2 ^ 63 },
}

impl<'a> Teller<'a> {
    /// The client of these requests, of which no note was heard yet.
    pub(crate) fn of(requests: &'a [Request]) -> Teller<'a>
        ensures { (result.told ≡ 0) × (result.rest.now ≡ requests.now) }
    {
        Teller {
            rest: requests,
            told: 0,
        }
    }

    /// Goes on behind the next note for that client, which there is, and answers its number among all notes of the teller.
    pub(crate) fn next(&mut self, hearer: u32) -> u64
        requires some { 1 ≤ length (counts_from self.old.told hearer self.old.rest.now) }
        ensures { counts_from self.old.told hearer self.old.rest.now ≡ (result + 1) ∷ counts_from self.new.told hearer self.new.rest.now }
    {
        while let Some((first, rest)) = self.rest.split_first() {
            self.rest = rest;
            if let Some(client) = hearer_of(first) {
                self.told += 1;
                if client == hearer {
                    return self.told - 1;
                }
            }
        }
        unreachable!()
    }
}

/// The client for which the request leaves a note, if it leaves one.
fn hearer_of(request: &Request) -> Option<u32>
    ensures some { IfSome result (λ client. hearer_of request.now ≡ client ∷ []) }
    ensures none { result ≡ None → hearer_of request.now ≡ [] }
{
    match request {
        Request::Tell { client } => Some(*client),
        _ => None,
    }
}
