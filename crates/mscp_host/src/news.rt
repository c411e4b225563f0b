// What a host says of its polls and of the ends that it receives.

ghost use Rattle.std.specs.Prelude.{◌≡◌};
ghost use Rattle.mscp_host.specs.Accounts.{is_code_of, news_of_figure};

use arrayvec::ArrayVec;
use mscp_packet::{End, endcodes};
use thiserror::Error;

/// Why a host refuses. A refusal changes nothing.
#[derive(Clone, Copy, Debug, Error)]
pub enum HostFault {
    /// The credits aren't 2 to 64.
    #[error("credits")]
    Credits,
    /// No credit is free.
    #[error("no-credit")]
    NoCredit,
    /// One credit is free, which is kept for commands that are answered when they arrive.
    #[error("last-credit")]
    LastCredit,
    /// The reference number is outstanding.
    #[error("doubled")]
    Doubled,
    /// The bytes are no end.
    #[error("unreadable")]
    Unreadable,
    /// It is the end of no outstanding command.
    #[error("unknown")]
    Unknown,
}

/// What there is to do where the oldest command is to be polled.
#[derive(Drop)]
pub enum Poll {
    /// Send this GET COMMAND STATUS.
    Ask(ArrayVec<u8, 48>),
    /// Nothing: no command is outstanding that isn't answered when it arrives.
    Nothing,
    /// Nothing: the end of a poll is still to come.
    Busy,
}

/// What a received end says.
#[derive(Clone, Copy)]
pub enum News {
    /// A command ended, or a poll was refused.
    Ended(End),
    /// The polled command's figure, which is less than the last one.
    Progress(u32),
    /// The polled command's figure, the first that was told of it.
    First(u32),
    /// The polled command has ended in the meantime.
    Late,
    /// The polled command's figure isn't less than the last one: the controller doesn't work on it, and the host
    /// resynchronises with it.
    Reset,
    /// The polled command's figure is 0, and none came before or the last one was above 0: the controller doesn't know
    /// the command.
    Lost,
}

/// What a figure says of a command of which this was told before.
pub(crate) fn news_of_figure(last: Option<u32>, figure: u32) -> News
    ensures { result ≡ news_of_figure last figure }
{
    match last {
        Some(last) if figure >= last => News::Reset,
        _ if figure == 0 => News::Lost,
        Some(_) => News::Progress(figure),
        None => News::First(figure),
    }
}

/// Whether the endcode is that of an unknown opcode, or that of this opcode byte. A byte with the top bit has no
/// endcode of its own.
pub(crate) fn is_code_of(code: u8, opcode: u8) -> bool
    ensures { result ≡ is_code_of code opcode }
{
    let own = u16::from(opcode) + u16::from(endcodes::UNKNOWN);
    code == endcodes::UNKNOWN || u16::from(code) == own
}
