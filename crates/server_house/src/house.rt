//! The shared parts of a server.

ghost use Rattle.std.specs.Prelude.{◌≡◌, ◌<◌, ◌≤◌, IfOk, None, Some, [], ◌∷◌};
ghost use Rattle.server_house.specs.Settings.{AreSettingsAt, announced};

use crate::ending::ServerShutdown;
use crate::lane::LaneSign;
use crate::logins::Logins;
use crate::session_sign::SessionSign;
use crate::terms::SharedTerms;
use crate::ticket::SessionTicket;
use client_door::DoorBell;
use client_patience::Patience;
use event_word::{EventCount, SharedEventCount};
use ftp_terms::LineText;
use lent_parts::{LentBoard, LentPass, PartsName};
use passive_ports::{Admissions, RestingPorts};
use rate_floors::Floors;
use server_config::ServerNumbers;
use session_table::Settings;
use std::alloc::{AllocError, Global};
use std::net::TcpStream;
use std::sync::Mutex;
use virtual_tree::Store;

/// The parts that the threads of a server share, with its store `S`, the handler `H` of its owner, and the name `B` of
/// its boards.
#[derive(Drop)]
pub struct House<S: Store<Global>, H: Drop, B: PartsName> {
    /// The users, and the settings of sessions, which a reload exchanges.
    pub terms: SharedTerms,
    pub numbers: ServerNumbers,
    pub patience: Patience,
    /// The store of all sessions without one of their own.
    pub store: Mutex<S>,
    /// A store for each connection, by its number, over the same files as the shared one; empty if there can be only
    /// one. With its own, a session waits for no call of another's.
    pub own_stores: Vec<Mutex<S>>,
    /// The connection of each admitted client, by its number, until its thread takes it.
    pub arrivals: Vec<Mutex<Option<TcpStream>>>,
    pub floors: Mutex<Floors>,
    /// The owner's callbacks.
    pub handler: Mutex<H>,
    pub ports: Mutex<RestingPorts>,
    /// The connections, and the limits to further ones.
    pub registry: Mutex<Admissions>,
    /// For each connection, by its number, the session, whether it is to end, and its bell.
    pub signs: Vec<SessionSign>,
    /// The users who are logged in.
    pub logins: Mutex<Logins>,
    /// The ticket of each session, by the number of its connection.
    pub tickets: Vec<SessionTicket<S>>,
    /// The numbers of the tickets on which a transfer waits for a lane; those of users with a guarantee go first. One that
    /// was taken back leaves its number here.
    pub board: LentBoard<B, u32>,
    /// The passes with which sessions push them.
    pub pass: Mutex<LentPass<B, u32>>,
    /// Increased when a transfer is pushed; idle lanes wait on it.
    pub jobs: SharedEventCount,
    /// For each lane, what rounds report to it.
    pub lanes: Vec<LaneSign>,
    /// Increased when a lane needs a round.
    pub waker: EventCount,
    pub ending: ServerShutdown,
}

impl<S: Store<Global>, H: Drop, B: PartsName> House<S, H, B> {
    /// Returns whether the session that a lane works for wants its transfer to end.
    pub fn is_stopping(&self, session: u64) -> bool {
        match self.tickets.get(session as usize) {
            Some(ticket) => ticket.is_stopping(),
            None => false,
        }
    }

    /// Returns whether the session of a connection is to end.
    pub fn is_to_end(&self, key: usize) -> bool {
        match self.signs.get(key) {
            Some(sign) => sign.is_to_end(),
            None => false,
        }
    }

    /// The bell of the session of a connection, which is made by the first call; none if the machine lends no descriptor.
    pub fn bell_of(&self, key: usize) -> Option<&DoorBell> {
        self.signs.get(key)?.bell()
    }

    /// Rings the bell of the session of a connection, if it has one: the end of its transfer is there.
    pub fn ring(&self, key: usize) {
        match self.signs.get(key) {
            Some(sign) => sign.ring(),
            None => {}
        }
    }

    /// Asks the session of this number to end. Returns whether it is there.
    pub fn ask_end(&self, serial: u64) -> bool {
        for sign in &self.signs {
            if sign.ask_end(serial) {
                return true;
            }
        }
        false
    }

    /// The store of the session of a connection: its own, or the shared one if it has none.
    pub fn store_of(&self, key: usize) -> &Mutex<S> {
        match store_place(key, self.own_stores.len()) {
            Some(place) => &self.own_stores[place],
            None => &self.store,
        }
    }
}

// The place of a connection's store among this many; None if it has none of its own.
fn store_place(key: usize, own: usize) -> Option<usize>
    ensures own { key < own → result ≡ Some key }
    ensures shared { own ≤ key → result ≡ None }
{
    if key < own { Some(key) } else { None }
}

/// The address that replies to PASV have: the stated one, or that at which the client arrived if none in particular is
/// stated (RFC 1122, section 3.2.1.3: 0.0.0.0 is no address of a host).
fn announced(stated: [u8; 4], arrived: [u8; 4]) -> [u8; 4]
    ensures address { result ≡ announced stated arrived }
{
    if stated == [0; 4] { arrived } else { stated }
}

/// The settings of one more session, whose client arrived at this address. Fails if memory runs out.
pub fn copy_settings(
    alloc: Global,
    settings: &Settings,
    arrived: [u8; 4],
) -> Result<Settings, AllocError>
    ensures same { IfOk result (AreSettingsAt settings.now arrived) }
{
    let banner = String::from_str(alloc, settings.banner.as_str())?;
    Ok(Settings {
        banner: LineText::made(banner),
        login_attempts: settings.login_attempts,
        permits_foreign_addresses: settings.permits_foreign_addresses,
        permits_privileged_ports: settings.permits_privileged_ports,
        address: announced(settings.address, arrived),
    })
}
