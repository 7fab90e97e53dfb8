//! The memory of a guest.
ghost use Rattle.std.specs.Prelude.{◌≡◌, replicate, length, IfOk, OnOk, OnErr};
ghost use Rattle.std.specs.Result.{result_err};
ghost use Rattle.byte_numbers.specs.Bytes.{IsBytes};
ghost use Rattle.guest_mem.specs.Memory.{access_answer, bytes_at, with_bytes, WritesAt};

use crate::error::MemErr;
use std::alloc::{AllocError, Global};
use std::marker::Model;

/// Bytes at the addresses from 0 on. Their number never changes.
#[derive(Debug, Drop)]
pub struct GuestMem {
    bytes: Vec<u8>,
}

impl Model for GuestMem {
    ghost use Rattle.std.specs.Prelude.{ℕ, List};
    ghost use Rattle.byte_numbers.specs.Bytes.{IsBytes};

    ghost Value = { List ℕ };

    ghost view = { λ m. m.bytes.items };

    ghost invariant = { λ m. IsBytes m.bytes.items };
}

impl GuestMem {
    /// A memory of these bytes.
    pub fn of(bytes: Vec<u8>) -> GuestMem
        ensures { result ≡ bytes.items }
    {
        GuestMem { bytes }
    }

    /// A memory of `len` bytes, all zero.
    pub fn zeros(alloc: Global, len: usize) -> Result<GuestMem, AllocError>
        ensures { IfOk result (λ mem. mem ≡ replicate len 0) }
    {
        Ok(GuestMem {
            bytes: vec![in alloc; 0; len]?,
        })
    }

    /// How many bytes there are.
    pub fn len(&self) -> u64
        ensures value { result ≡ length self.now }
        ensures bytes { IsBytes self.now }
    {
        self.bytes.len() as u64
    }

    /// The `len` bytes that stand from `addr` on, where they are: nothing is copied.
    pub fn slice(&self, addr: u64, len: u64) -> Result<&[u8], MemErr>
        ensures answer { result_err result ≡ result_err (access_answer self.now addr len) }
        ensures ok { IfOk result (λ bytes. bytes.now ≡ bytes_at self.now addr len) }
    {
        self.check(addr, len)?;
        let start = addr as usize;
        Ok(&self.bytes[start..start + len as usize])
    }

    /// Fills the buffer with the bytes that stand from `addr` on.
    pub fn read(&self, addr: u64, buf: &mut [u8]) -> Result<(), MemErr>
        ensures answer { result ≡ access_answer self.now addr (length buf.old) }
        ensures ok { OnOk result (buf.new ≡ bytes_at self.now addr (length buf.old)) }
        ensures err { OnErr result (buf.new ≡ buf.old) }
    {
        self.check(addr, buf.len() as u64)?;
        let start = addr as usize;
        buf.copy_from_slice(&self.bytes[start..start + buf.len()]);
        Ok(())
    }

    /// Writes the bytes from `addr` on, and leaves all others.
    pub fn write(&mut self, addr: u64, bytes: &[u8]) -> Result<(), MemErr>
        ensures answer { result ≡ access_answer self.old addr (length bytes.now) }
        ensures ok { OnOk result (self.new ≡ with_bytes self.old addr bytes.now) }
        ensures written { OnOk result (WritesAt self.old self.new addr bytes.now) }
        ensures err { OnErr result (self.new ≡ self.old) }
    {
        self.check(addr, bytes.len() as u64)?;
        let start = addr as usize;
        self.bytes[start..start + bytes.len()].copy_from_slice(bytes);
        Ok(())
    }

    // Refuses an access that passes the memory's end. The sum of the two numbers may pass 2^64, so it isn't taken.
    fn check(&self, addr: u64, count: u64) -> Result<(), MemErr>
        ensures { result ≡ access_answer self.now addr count }
    {
        let len = self.len();
        if addr <= len && count <= len - addr {
            Ok(())
        } else {
            Err(MemErr::Outside(addr, count))
        }
    }
}
