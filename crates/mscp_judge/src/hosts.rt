// The hosts of a log: what they send, and what they say of an end.

ghost use Rattle.std.specs.Prelude.{◌≡◌, ◌++◌, OnOk};
ghost use Rattle.mscp_judge.specs.Heard.{command_in, hears, host_of, is_about, is_reset, news_line, news_text, sends, sends_message};

use mscp_controller::Connection;
use mscp_host::{Host, HostFault, News, Poll, Submission};
use mscp_packet::{Command, Order, read_command};
use mscp_text::{put, put_field};
use std::alloc::{AllocError, Allocator};

/// The host of a connection of so many credits, if that has one.
pub(crate) fn host_of(credits: u32) -> Option<Host>
    ensures { result ≡ host_of credits }
{
    Host::new(credits).ok()
}

/// The command that a message is, if it is one.
pub(crate) fn command_in(message: &[u8]) -> Option<Command>
    ensures { result ≡ command_in message.now }
{
    read_command(message).ok()
}

/// Whether the submission has the number that this order asks about.
fn is_about(order: &Order, oldest: &Option<Submission>) -> bool
    ensures { result ≡ is_about order.now oldest.now }
{
    match (order, oldest) {
        (Order::Status(other), Some(submission)) => submission.reference == *other,
        _ => false,
    }
}

/// A host sends a command: it is a poll if it asks about the host's oldest, and else an ordinary submission.
fn send(host: &mut Host, command: &Command)
    ensures { host.new ≡ sends host.old command.now }
{
    if is_about(&command.order, &host.oldest()) {
        match host.poll(command.reference) {
            Ok(Poll::Busy) => {}
            _ => return,
        }
    }
    let _ = host.submit(command);
}

/// The host of a connection, if it has one, sends a message.
pub(crate) fn send_message(host: &mut Option<Host>, message: &[u8])
    ensures { host.new ≡ sends_message host.old (command_in message.now) }
{
    let command = command_in(message);
    if let (Some(host), Some(command)) = (host, &command) {
        send(host, command);
    }
}

/// What the host of a connection, if it has one, says of bytes that it receives.
pub(crate) fn hear(host: &mut Option<Host>, bytes: &[u8]) -> Result<News, HostFault>
    ensures { (result, host.new) ≡ hears host.old bytes.now }
{
    match host {
        Some(host) => host.receive(bytes),
        None => Err(HostFault::Unknown),
    }
}

/// Whether a host that says this would have reset the controller.
pub(crate) fn is_reset(said: &Result<News, HostFault>) -> bool
    ensures { result ≡ is_reset said.now }
{
    matches!(said, Ok(News::Reset | News::Lost))
}

/// Appends the words of what a host says.
fn put_news<A: Allocator>(
    text: &mut Vec<u8, A>,
    said: &Result<News, HostFault>,
) -> Result<(), AllocError>
    ensures { OnOk result (text.new.items ≡ text.old.items ++ news_text said.now) }
{
    match said {
        Ok(News::Ended(end)) => put_field(text, "ended ", end.reference),
        Ok(News::Progress(figure)) => put_field(text, "progress ", *figure),
        Ok(News::First(figure)) => put_field(text, "first ", *figure),
        Ok(News::Late) => put(text, "late"),
        Ok(News::Reset) => put(text, "reset"),
        Ok(News::Lost) => put(text, "lost"),
        Err(_) => put(text, "nobody's"),
    }
}

/// Appends the line of what a host says of the end in the line of this number.
pub(crate) fn put_line<A: Allocator>(
    text: &mut Vec<u8, A>,
    number: u32,
    said: &Result<News, HostFault>,
) -> Result<(), AllocError>
    ensures { OnOk result (text.new.items ≡ text.old.items ++ news_line number said.now) }
{
    put_field(text, "line ", number)?;
    put(text, ": ")?;
    put_news(text, said)?;
    put(text, "\n")
}
