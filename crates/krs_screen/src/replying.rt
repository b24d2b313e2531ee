ghost use Rattle.std.specs.Prelude.{◌<◌, ◌≡◌, ◌≤◌, false, length, min, true};
ghost use Rattle.krs_screen.specs.Step.{head_step, is_bad_reply, reply_step, with_eperm};

use crate::counting::{Screen, answer_more, forget_refused, is_refused};
use crate::numbers::{put_u32, u32_in};
use krs_types::Errno;

/// Gives a reply the status EPERM.
#[tactic(auto, unfolding(crate::specs::Step::with_eperm))]
fn put_eperm(bytes: &mut [u8])
    requires { 8 ≤ length bytes.old }
    ensures { bytes.new ≡ with_eperm bytes.old }
{
    put_u32(bytes, 4, Errno::EPERM.number());
}

#[tactic(auto, unfolding(crate::specs::Step::is_bad_reply))]
fn is_bad_reply(screen: &Screen, n: u32, status: u32) -> bool
    ensures { result ≡ is_bad_reply screen.now n status }
{
    n < 4 || 262_152 < n || screen.answered == screen.asked || (is_refused(screen) && status == 0)
}

/// The head of a reply.
#[tactic(auto, unfolding(crate::specs::Step::head_step, crate::specs::Step::is_bad_reply))]
fn take_head(screen: &mut Screen, bytes: &mut [u8]) -> usize
    requires { 8 ≤ length bytes.old }
    ensures exact { (result, (bytes.new, screen.new)) ≡ head_step screen.old bytes.old }
    ensures fault { result ≡ 0 → screen.new.reply_fault ≡ true }
{
    let n = u32_in(bytes, 0);
    let status = u32_in(bytes, 4);
    if is_bad_reply(screen, n, status) {
        screen.reply_fault = true;
        return 0;
    }
    if is_refused(screen) {
        forget_refused(screen);
        put_eperm(bytes);
    }
    answer_more(screen, n - 4);
    8
}

/// The same for bytes from the daemon: the status of a reply to a void HELLO becomes EPERM.
#[tactic(auto, unfolding(crate::specs::Step::reply_step))]
pub fn reply(screen: &mut Screen, bytes: &mut [u8]) -> usize
    ensures exact { (result, (bytes.new, screen.new)) ≡ reply_step screen.old bytes.old }
    ensures short { result ≡ 0 → screen.new.reply_fault ≡ false → length bytes.old < 8 }
{
    if screen.reply_fault {
        return 0;
    }
    if screen.reply_left > 0 {
        let passed = (screen.reply_left as usize).min(bytes.len());
        screen.reply_left -= passed as u32;
        return passed;
    }
    if bytes.len() < 8 {
        return 0;
    }
    take_head(screen, bytes)
}
