//! Lines that are read and written back.

ghost use Rattle.ll_wire.specs.Grammar.{IsCall, IsClient};

use ll_seq::Call;
use ll_wire::{command_text, read_command, read_reply, reply_text};
use std::alloc::{AllocError, Global};
use std::test::Fail;

fn is_spelled(alloc: Global, client: u64, call: &Call, line: &[u8]) -> Result<bool, AllocError>
    requires client { IsClient client }
    requires call { IsCall call.now }
{
    let text = command_text(alloc, client, call)?;
    Ok(text.as_bytes() == line)
}

/// Whether the line parses as a command that is written as the same line.
fn is_written_back(alloc: Global, line: &[u8]) -> Result<bool, AllocError> {
    match read_command(alloc, line, 64) {
        Ok((client, call)) => {
            let is_spelled = is_spelled(alloc, client, &call, line);
            drop(call);
            is_spelled
        }
        Err(_) => Ok(false),
    }
}

/// Whether the line parses as a reply that is written as the same line.
fn is_reply_written_back(alloc: Global, line: &[u8]) -> Result<bool, AllocError> {
    let Ok(reply) = read_reply(alloc, line) else {
        return Ok(false);
    };
    let text = reply_text(alloc, &reply)?;
    Ok(text.as_bytes() == line)
}

const COMMANDS: &[&[u8]] = &[
    b"make sym /a/b\n",
    b"open r /f\n",
    b"open wt /f\n",
    b"open rwtcx /f\n",
    b"read 63 65536 0\n",
    b"write 0 0 68656c6c6f\n",
    b"write 0 65535 -\n",
    b"ftruncate 7 65537\n",
    b"close 0\n",
    b"truncate /f 18446744073709551615\n",
    b"list /\n",
    b"stat /a//b\n",
    b"exec /a/b/f\n",
    b"unlink /d/f\n",
    b"rmdir /g\n",
    b"rename /a/f x\n",
    b"rename_noreplace /a/f /x\n",
    b"exchange /a/f /b\n",
    b"link /f /g\n",
    b"ruleset none\n",
    b"ruleset 0x8001\n",
    b"ruleset 0xffffffffffffffff\n",
    b"allow 0 /f read_file,refer\n",
    b"confine 15\n",
    b"spawn\n",
    b"@64 stat /\n",
];

const REPLIES: &[&[u8]] = &[
    b"ok\n",
    b"fd 63\n",
    b"data -\n",
    b"data 68656c6c6f\n",
    b"wrote 0\n",
    b"names\n",
    b"names f p s\n",
    b"stat 3 reg 5 2\n",
    b"ruleset 0\n",
    b"client 64\n",
    b"refused 3 ENOENT\n",
    b"denied EACCES layer 1 read_file at\n",
];

#[test]
fn lines_are_written_back(rt: HostRuntime) -> Result<(), Fail> {
    for line in COMMANDS {
        assert!(rt; is_written_back(rt.alloc(), line)?, "{line:?}");
    }
    for line in REPLIES {
        assert!(rt; is_reply_written_back(rt.alloc(), line)?, "{line:?}");
    }
    Ok(())
}
