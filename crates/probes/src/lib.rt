// What the benchmark times beside the calls: each engine by itself, and start-up. No part of the archive.
#![tactic(auto)]

ghost use Rattle.std.specs.Prelude.{◌≡◌};
ghost use Rattle.bits.specs.Bytes.{word};
ghost use Rattle.machine.specs.declared.edition.Edition.TheVariants.{First};
ghost use Rattle.startup.specs.Editions.{initialised};
ghost use Rattle.probes.specs.Probes.{last_outputs};

use machine::edition::Edition;
use preoutput::{Adding, Registers, Run};

fn begun(lfsr0: u64, lfsr1: u64, nfsr0: u64, nfsr1: u64) -> Run
    ensures { result ≡ record { registers = record { lfsr0 = lfsr0; lfsr1 = lfsr1; nfsr0 = nfsr0; nfsr1 = nfsr1 }; outputs = 0 } }
{
    Run::begun(Registers {
        lfsr0,
        lfsr1,
        nfsr0,
        nfsr1,
    })
}

// The last 64 pre-outputs of n plain clocks, clock by clock.
#[unsafe(no_mangle)]
pub extern "C" fn probe_plain_engine(
    lfsr0: u64,
    lfsr1: u64,
    nfsr0: u64,
    nfsr1: u64,
    n: usize,
) -> u64
    ensures { word 64 result ≡ last_outputs lfsr0 lfsr1 nfsr0 nfsr1 n }
{
    preoutput::plain::run(begun(lfsr0, lfsr1, nfsr0, nfsr1), Adding::NOTHING, n).outputs
}

// The same by strokes.
#[unsafe(no_mangle)]
pub extern "C" fn probe_strokes(lfsr0: u64, lfsr1: u64, nfsr0: u64, nfsr1: u64, n: usize) -> u64
    ensures { word 64 result ≡ last_outputs lfsr0 lfsr1 nfsr0 nfsr1 n }
{
    strokes::run(begun(lfsr0, lfsr1, nfsr0, nfsr1), Adding::NOTHING, n).outputs
}

// The accumulator after start-up of the first edition.
#[unsafe(no_mangle)]
pub extern "C" fn probe_start_up(key: &[u8; 16], nonce: &[u8; 12]) -> u64
    ensures { word 64 result ≡ (initialised First key.now nonce.now).authenticator.accumulator }
{
    let e = startup::start(Edition::First, key, nonce);
    e.tagger.accumulator
}
