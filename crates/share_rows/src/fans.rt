//! A fan by hand.
ghost use Rattle.fan_buffer.specs.Readings.{IsReadingOf};

use crate::checks::{Checks, Differs};
use fan_buffer::{Fan, Reading, Taking};
use memory_count::Memory;
use message_buffer::MsgBuf;

/// A fan of the bytes `ab`.
fn fan_of_two(memory: &mut Memory) -> Option<Fan> {
    let mut buffer = MsgBuf::new(memory, 2).ok()?;
    buffer.set_len(2);
    buffer.write(0, b"ab");
    Fan::new(buffer).ok()
}

/// Both readings show the bytes, and nobody takes the buffer while they are open.
fn read_both(fan: &Fan, one: Reading<'_>, two: Reading<'_>, checks: &mut Checks)
    requires one { IsReadingOf fan.now one }
    requires two { IsReadingOf fan.now two }
{
    checks.expect(fan.bytes(&one) == Some(b"ab".as_slice()), Differs::Bytes);
    checks.expect(fan.bytes(&two) == Some(b"ab".as_slice()), Differs::Bytes);
    checks.expect(matches!(fan.take(), Taking::Lost), Differs::Bytes);
    fan.close(one);
    fan.close(two);
}

fn open_both(fan: &Fan, checks: &mut Checks) {
    match (fan.open(), fan.open()) {
        (Some(one), Some(two)) => read_both(fan, one, two, checks),
        (Some(one), None) => {
            fan.close(one);
            checks.miss(Differs::Open);
        }
        (None, Some(two)) => {
            fan.close(two);
            checks.miss(Differs::Open);
        }
        (None, None) => checks.miss(Differs::Open),
    }
}

fn take_all(fan: &Fan, checks: &mut Checks) {
    match fan.take() {
        Taking::Buffer(taken) => checks.expect(taken.bytes() == b"ab".as_slice(), Differs::Bytes),
        Taking::Lost | Taking::Gone => checks.miss(Differs::Bytes),
    }
}

/// An empty fan shows nothing.
fn read_empty(fan: &Fan, checks: &mut Checks) {
    match fan.open() {
        Some(reading) => {
            checks.expect(fan.bytes(&reading).is_none(), Differs::Bytes);
            fan.close(reading);
        }
        None => checks.miss(Differs::Open),
    }
    checks.expect(matches!(fan.take(), Taking::Gone), Differs::Bytes);
}

/// Two readings, and then the buffer is taken.
pub fn row(memory: &mut Memory) -> Checks {
    let mut checks = Checks::new();
    match fan_of_two(memory) {
        Some(fan) => {
            open_both(&fan, &mut checks);
            take_all(&fan, &mut checks);
            read_empty(&fan, &mut checks);
        }
        None => checks.miss(Differs::Memory),
    }
    checks
}
