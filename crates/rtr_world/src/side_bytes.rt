//! The bytes that an event moves.
ghost use Rattle.std.specs.Prelude.{◌≡◌, ◌≤◌, ℕ, Option, IfOk, min};
ghost use Rattle.rtr_ends.specs.Cache.{Conn as Conned};
ghost use Rattle.rtr_world.specs.SideShown.{AloneAt, BeginsEvent, Moves, Passes, SendsSome, ShowsBoth, ShowsSide};
ghost use Rattle.rtr_world.specs.World as model;

use crate::side::Side;
use rtr_ends::{Cache, Conn};
use rtr_pdu::MAX_UNIT_LEN;
use std::alloc::AllocError;
use vrps::VersionLog;

/// At most this many bytes, and at most as many as an end has ready, which are those of one PDU.
fn chunk(most: u64) -> usize
    ensures { result ≡ min most MAX_UNIT_LEN }
{
    if most < MAX_UNIT_LEN as u64 {
        most as usize
    } else {
        MAX_UNIT_LEN
    }
}

impl Side {
    /// Moves at most `most` pending bytes of the router to the wire to the cache, and at most the rest of one PDU. `Err`: memory ran out, and the
    /// bytes that were pulled are lost.
    pub fn router_sends(&mut self, most: u64) -> Result<(), AllocError>
        ensures { (w : model.World) (at : ℕ → Option Conned) (s : model.Side) → ShowsSide w at s self.old →
            BeginsEvent w at (model.RouterSends most) s (λ t. AloneAt w at t self.old self.new) result }
    {
        rtr_ends::laws::router_has_room(&self.router);
        let mut room = [0; MAX_UNIT_LEN];
        let room = &mut room[..chunk(most)];
        let count = self.router.pull(room);
        if count == 0 {
            return Ok(());
        }
        self.up.put(room, count)
    }

    /// Delivers at most `most` bytes from the wire to the cache. Bytes that the cache does not consume stay on the wire. If there is no connection,
    /// nothing changes.
    pub fn cache_gets(&mut self, cache: &mut Cache<VersionLog>, most: u64)
        ensures { (w : model.World) (at : ℕ → Option Conned) (s : model.Side) → ShowsBoth w at s cache.old self.old →
            Passes w at (model.CacheGets most) s (λ t. Moves w at self.old.conn t cache.new self.new) }
    {
        match self.conn {
            None => {}
            Some(conn) => {
                let count = cache.receive(conn, self.up.front(most));
                self.up.arrive(count);
            }
        }
    }

    /// Moves at most `most` bytes, and at most one PDU, from the connection to the wire to the router. Returns how many.
    fn send_some(
        &mut self,
        cache: &mut Cache<VersionLog>,
        conn: Conn,
        most: u64,
    ) -> Result<usize, AllocError>
        ensures sends { (w : model.World) (at : ℕ → Option Conned) (s : model.Side) (o : Conned) → ShowsBoth w at s cache.old self.old → s.conn ≡ Option.Some o → self.old.conn ≡ Option.Some conn →
            SendsSome w at most s o (λ t. Moves w at self.old.conn t cache.new self.new) result }
        ensures conn { self.new.conn ≡ self.old.conn }
        ensures few { IfOk result (λ count. count ≤ most) }
    {
        let mut room = [0; MAX_UNIT_LEN];
        let room = &mut room[..chunk(most)];
        let count = cache.pull(conn, room).min(room.len());
        self.down.put(room, count)?;
        Ok(count)
    }

    /// At most this many bytes are pulled from the connection, piece by piece, and put on the wire to the router.
    fn send(
        &mut self,
        cache: &mut Cache<VersionLog>,
        conn: Conn,
        most: u64,
    ) -> Result<(), AllocError>
        ensures { (w : model.World) (at : ℕ → Option Conned) (s : model.Side) (o : Conned) → ShowsBoth w at s cache.old self.old → s.conn ≡ Option.Some o → self.old.conn ≡ Option.Some conn →
            BeginsEvent w at (model.CacheSends most) s (λ t. Moves w at self.old.conn t cache.new self.new) result }
    {
        let mut left = most;
        while left > 0 {
            let count = self.send_some(cache, conn, left)?;
            if count == 0 {
                return Ok(());
            }
            left -= count as u64;
        }
        Ok(())
    }

    /// Moves at most `most` due bytes from the cache's connection to the wire to the router. If there is no connection, nothing changes.
    /// `Err`: memory ran out. Bytes that were pulled before may be lost.
    pub fn cache_sends(
        &mut self,
        cache: &mut Cache<VersionLog>,
        most: u64,
    ) -> Result<(), AllocError>
        ensures { (w : model.World) (at : ℕ → Option Conned) (s : model.Side) → ShowsBoth w at s cache.old self.old →
            BeginsEvent w at (model.CacheSends most) s (λ t. Moves w at self.old.conn t cache.new self.new) result }
    {
        match self.conn {
            None => Ok(()),
            Some(conn) => self.send(cache, conn, most),
        }
    }

    /// Delivers at most `most` bytes from the wire to the router, at second 0 of its clock. So its clock does not advance. Bytes that the router does
    /// not consume stay on the wire.
    pub fn router_gets(&mut self, most: u64)
        ensures { (w : model.World) (at : ℕ → Option Conned) (s : model.Side) → ShowsSide w at s self.old →
            Passes w at (model.RouterGets most) s (λ t. AloneAt w at t self.old self.new) }
    {
        let count = self.router.receive(self.down.front(most), 0);
        self.down.arrive(count);
    }
}
