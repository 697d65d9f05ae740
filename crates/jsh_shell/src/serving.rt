ghost use Rattle.std.specs.Prelude.{◌≡◌, ◌+◌, ◌*◌, ◌^◌, ◌<◌, ◌≤◌, ◌++◌, false, [], length, take, Ok, IfErr, IfOk, IfSome, OnErr, OnOk};
ghost use Rattle.std.specs.Io.KnownBytes.{prepend_known};
ghost use Rattle.jsh_lines.specs.Lines.{cut};
ghost use Rattle.jsh_cut.specs.Commands.{held_text};
ghost use Rattle.jsh_io.specs.Count.{Rose};
ghost use Rattle.jsh_shell.specs.Cutting.{ServesCut, piece_gives};
ghost use Rattle.jsh_shell.specs.Progress.Phase.{Between};
ghost use Rattle.jsh_shell.specs.Serving.{Counts, IsOpen, IsServedBy, ServesPart};

use crate::halts::Halt;
use crate::lines::{Behind, serve_begun, serve_end};
use crate::session::Session;
use crate::statuses::{ALL_SERVED, LIMIT_MET, READ_FAILED};
use jsh_cut::Held;
use jsh_io::{Failed, Sink, Source};
use jsh_lines::line_end;
use jsh_steps::Steps;
use std::alloc::Global;
use std::sync::ledger::Ledger;

/// The bytes that a client may read.
const MOST_INPUT: usize = 1_073_741_824;

/// The bytes that are read at a time.
pub const PIECE: usize = 8_192;

/// Serves the lines that end in a piece of input. What stands behind the last of them begins the next line.
#[tactic(none)]
fn serve_piece<O: Sink, L: Ledger>(
    alloc: Global,
    session: &mut Session,
    client: u32,
    budget: u64,
    sink: &mut O,
    held: Held,
    begun: &mut Vec<u8>,
    piece: &[u8],
    steps: &mut Steps<L>,
) -> Result<Behind, Halt>
    requires open { IsOpen client session.old.core }
    requires uncut { (cut begun.old.items).rest ≡ begun.old.items }
    requires few { length (held_text held) + 3 * (length begun.old.items + length piece.now) < 2 ^ 32 }
    ensures ok { IfOk result (λ behind. ServesCut budget client session.old session.new (O.held sink.old) (O.held sink.new) (piece_gives held (begun.old.items ++ piece.now)) behind) }
    ensures begun { IfOk result (λ behind. behind.exits ≡ false → begun.new.items ≡ (cut (begun.old.items ++ piece.now)).rest) }
    ensures few { IfOk result (λ behind. behind.exits ≡ false → length (held_text behind.held) + 3 * length begun.new.items ≤ length (held_text held) + 3 * (length begun.old.items + length piece.now)) }
    ensures err { IfErr result (λ why. ServesPart why budget client Between session.old session.new (O.held sink.old) (O.held sink.new) (piece_gives held (begun.old.items ++ piece.now)).commands) }
    ensures open { IsOpen client session.new.core }
    ensures counts { Counts result (O.faults sink.old) (O.faults sink.new) }
    ensures stream { O.stream sink.new ≡ O.stream sink.old }
{
    let mut waiting = held;
    let mut rest = piece;
    'lines: while let Some(at) = line_end(rest) {
        let (line, next) = rest.split_at(at);
        let behind = match serve_begun(
            alloc, session, client, budget, sink, waiting, begun, line, steps,
        ) {
            Ok(behind) => behind,
            Err(why) => return Err(why),
        };
        if behind.exits {
            return Ok(behind);
        }
        waiting = behind.held;
        let (_feed, later) = next.split_at(1);
        rest = later;
    }
    match begun.extend_from_slice(rest) {
        Ok(()) => Ok(Behind {
            held: waiting,
            exits: false,
        }),
        Err(_refused) => Err(Halt::NoMemory),
    }
}

/// Reads at most so many bytes to the front of the buffer.
fn read_some<I: Source>(source: &mut I, buffer: &mut [u8], room: usize) -> Result<usize, Failed>
    requires some { 0 < room }
    requires fits { room ≤ length buffer.old }
    ensures bound { IfOk result (λ n. n ≤ room) }
    ensures bytes { IfOk result (λ n. I.left source.old ≡ prepend_known (take n buffer.new) (I.left source.new)) }
    ensures end { result ≡ Ok 0 → IfSome (I.left source.old) (λ bytes. bytes ≡ []) }
    ensures none_lost { OnErr result (I.left source.new ≡ I.left source.old) }
    ensures failed { OnErr result (Rose (I.faults source.old) (I.faults source.new)) }
    ensures no_fault { OnOk result (I.faults source.new ≡ I.faults source.old) }
{
    source.read(&mut buffer[..room])
}

/// Serves a client until its input ends or it asks for an end, a read or a write fails, or a limit or want of
/// memory comes. The answer is its status.
#[tactic(none)]
pub fn serve_pieces<I: Source, O: Sink, L: Ledger>(
    alloc: Global,
    session: &mut Session,
    client: u32,
    budget: u64,
    source: &mut I,
    sink: &mut O,
    buffer: &mut [u8],
    steps: &mut Steps<L>,
) -> u8
    requires open { IsOpen client session.old.core }
    requires piece { length buffer.old ≡ PIECE }
    ensures served { IsServedBy budget client result session.old session.new (I.left source.old) (I.left source.new) (O.held sink.old) (O.held sink.new)
        (I.faults source.old) (I.faults source.new) (O.faults sink.old) (O.faults sink.new) }
    ensures open { IsOpen client session.new.core }
    ensures stream { O.stream sink.new ≡ O.stream sink.old }
{
    let mut held = Held::Nothing;
    let mut begun = Vec::new(alloc);
    let mut total: usize = 0;
    'pieces: while total < MOST_INPUT {
        let room = PIECE.min(MOST_INPUT - total);
        let count = match read_some(source, buffer, room) {
            Ok(count) => count,
            Err(_failed) => return READ_FAILED,
        };
        if count == 0 {
            match serve_end(
                alloc,
                session,
                client,
                budget,
                sink,
                held,
                begun.as_slice(),
                steps,
            ) {
                Ok(()) => return ALL_SERVED,
                Err(why) => return why.status(),
            }
        }
        let behind = match serve_piece(
            alloc,
            session,
            client,
            budget,
            sink,
            held,
            &mut begun,
            &buffer[..count],
            steps,
        ) {
            Ok(behind) => behind,
            Err(why) => return why.status(),
        };
        total += count;
        if behind.exits {
            if total < MOST_INPUT {
                return ALL_SERVED;
            }
            return LIMIT_MET;
        }
        held = behind.held;
    }
    LIMIT_MET
}
