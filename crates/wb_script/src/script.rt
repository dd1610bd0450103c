//! A script that was parsed.
ghost use Rattle.std.specs.Prelude.{◌≡◌, ◌++◌, ◌∷◌, [], OnOk, OnErr};

use crate::Request;
use std::alloc::{AllocError, Global};
use std::marker::Model;

/// The requests of one client, in the order of lines.
#[derive(Debug, Drop)]
pub struct Requests {
    items: Vec<Request>,
}

impl Model for Requests {
    ghost use Rattle.std.specs.Prelude.{List};
    ghost use Rattle.wb_script.specs.declared.request.Request.{Request};

    ghost Value = { List Request };

    ghost view = { λ r. r.items.items };
}

impl Requests {
    /// No request yet.
    pub fn new(alloc: Global) -> Requests
        ensures { result ≡ [] }
    {
        Requests {
            items: Vec::new(alloc),
        }
    }

    /// Adds a request behind the others. For want of memory they stay as they were.
    pub fn push(&mut self, request: Request) -> Result<(), AllocError>
        ensures ok { OnOk result (self.new ≡ self.old ++ request ∷ []) }
        ensures err { OnErr result (self.new ≡ self.old) }
    {
        self.items.push(request)?;
        Ok(())
    }

    /// The requests in order.
    pub fn as_slice(&self) -> &[Request]
        ensures { result.now ≡ self.now }
    {
        self.items.as_slice()
    }
}

/// A script: the number of clients, the backing sectors that it was parsed for or the region that it was generated for, and the requests of each client.
#[derive(Debug, Drop)]
pub struct Script {
    clients: u32,
    sectors: u64,
    requests: Vec<Requests>,
}

impl Model for Script {
    ghost use Rattle.wb_script.specs.Content.{ScriptContent};

    ghost Value = { ScriptContent };

    ghost view = { λ s. record { clients = s.clients; sectors = s.sectors; requests = s.requests.items } };
}

impl Script {
    /// A script of these numbers and requests.
    pub fn of(clients: u32, sectors: u64, requests: Vec<Requests>) -> Script
        ensures clients { result.clients ≡ clients }
        ensures sectors { result.sectors ≡ sectors }
        ensures requests { result.requests ≡ requests.items }
    {
        Script {
            clients,
            sectors,
            requests,
        }
    }

    /// The number of clients.
    pub fn clients(&self) -> u32
        ensures { result ≡ self.now.clients }
    {
        self.clients
    }

    /// The sectors of the backing device that the script was parsed for.
    pub fn sectors(&self) -> u64
        ensures { result ≡ self.now.sectors }
    {
        self.sectors
    }

    /// The requests of each client.
    pub fn requests(&self) -> &[Requests]
        ensures { result.now ≡ self.now.requests }
    {
        self.requests.as_slice()
    }
}
