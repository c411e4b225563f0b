// Bytes to a host of a port.

ghost use Rattle.std.specs.Prelude.{◌≡◌, ◌*◌, ◌≤◌, length, IfOk, None};
ghost use Rattle.mscp_host.specs.PortRestored.{asked_in, asked_with, host_part, is_port_framed, port_account_in, port_head_fault, port_restored};
ghost use Rattle.mscp_host.specs.PortSaved.{port_saved_bytes};
ghost use Rattle.mscp_host.specs.Restored.{restored};
ghost use Rattle.mscp_host.specs.Saved.{saved_bytes};

use crate::asked::Asked;
use crate::host::Host;
use crate::port_host::PortHost;
use crate::port_saving::{MAGIC, VERSION};
use crate::restoring::RestoreFault;
use crate::submission::Submission;
use arrayvec::ArrayVec;
use mscp_packet::fields::{four_at, two_at};

/// An outstanding command, with the bytes that it asks for.
fn asked_with(submission: &Submission, bytes: u32) -> Asked
    ensures { result ≡ asked_with submission.now bytes }
{
    Asked {
        reference: submission.reference,
        unit: submission.unit,
        opcode: submission.opcode,
        bytes,
    }
}

/// The outstanding commands, with the bytes that each asks for.
fn asked_in(b: &[u8], outstanding: &[Submission]) -> ArrayVec<Asked, 64>
    requires few { length outstanding.now ≤ 64 }
    requires there { 4 * length outstanding.now ≤ length b.now }
    ensures { result.items ≡ asked_in b.now outstanding.now }
{
    let mut out = ArrayVec::new();
    for place in 0..outstanding.len() {
        out.push(asked_with(&outstanding[place], four_at(&b[4 * place..], 0)));
    }
    out
}

/// Whether there is a head, and as many bytes as it tells, which are those of the parts that it tells.
fn is_framed(b: &[u8]) -> bool
    ensures { result ≡ is_port_framed b.now }
{
    16 <= b.len() && four_at(b, 8) as usize == b.len() && 42 + 16 * usize::from(b[15]) == b.len()
}

/// Why bytes have no head of a saved host of a port, if they have none.
fn head_fault(b: &[u8]) -> Option<RestoreFault>
    ensures { result ≡ port_head_fault b.now }
{
    if !is_framed(b) {
        return Some(RestoreFault::Length);
    }
    if four_at(b, 0) != MAGIC {
        return Some(RestoreFault::Magic);
    }
    if four_at(b, 4) != VERSION {
        return Some(RestoreFault::Version);
    }
    None
}

/// The host in what bytes with the head of a host of a port say.
fn host_in(b: &[u8]) -> Result<Host, RestoreFault>
    requires { port_head_fault b.now ≡ None }
    ensures value { result ≡ restored (host_part b.now) }
    ensures only { IfOk result (λ host. saved_bytes host ≡ host_part b.now) }
{
    Host::restore(&b[16 + 4 * usize::from(b[15])..])
}

/// The host of a port that bytes with the head of one say, with the host that they say.
fn port_host_in(b: &[u8], host: Host) -> PortHost
    requires head { port_head_fault b.now ≡ None }
    requires said { saved_bytes host ≡ host_part b.now }
    requires room { host.credits ≡ 64 }
    ensures { result ≡ port_account_in b.now host }
{
    let asked = asked_in(&b[16..], host.outstanding.as_slice());
    PortHost {
        host,
        asked,
        credits: two_at(b, 12),
        is_over: b[14] != 0,
    }
}

impl PortHost {
    /// The host that bytes say, if they are the bytes that it is saved as. What it heard before is nobody's to say but
    /// theirs who saved it; it is a host whatever the bytes were.
    ///
    /// # Errors
    ///
    /// The first that holds of what is wrong with the head, and what is wrong with the host in it, which has 64
    /// credits.
    pub fn restore(b: &[u8]) -> Result<PortHost, RestoreFault>
        ensures value { result ≡ port_restored b.now }
        ensures only { IfOk result (λ host. port_saved_bytes host ≡ b.now) }
    {
        if let Some(fault) = head_fault(b) {
            return Err(fault);
        }
        let host = match host_in(b) {
            Ok(host) => host,
            Err(fault) => return Err(fault),
        };
        if host.credits != 64 {
            return Err(RestoreFault::Credits);
        }
        let restored = port_host_in(b, host);
        if restored.save().as_slice() == b {
            Ok(restored)
        } else {
            Err(RestoreFault::Form)
        }
    }
}
