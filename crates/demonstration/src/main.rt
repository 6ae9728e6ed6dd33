// The product's main job on sample data. Standard input holds a memory window of 512 bytes, whose first byte stands at
// the address 0x1000, and an area of 16,384 bytes behind it. The window's list of descriptors begins at 0x1000; the
// area's record has 2 banks and 1 image.
// The capsule is gathered and taken apart; then the area is updated twice with the image that the capsule's payload
// names. A power cut breaks the first update's End after 5 of its 12 stores, start-up still reads the old record, and
// repair makes both copies equal again; the second update is done whole.
// The file stdin is made by the script crates/demonstration/make (Python 3), by the layouts of docs/RULES.md: the
// capsule has one driver and one payload of version 2, cut into three blocks that lie apart, with a jump behind the
// first descriptor; the payload's type GUID is that of image 0; every image is accepted in both banks, bank 0 is active
// and bank 1 previous. The check (.ci/run) runs the program and not the script.
#![tactic(auto)]

mod parts;
mod steps;

use reading::read_full;
use std::io;
use steps::{Call, repaired, started, step};

// No list has more stores.
const ALL: usize = 2100;

// Begin, Commit of the image with that type GUID, and End, of which only so many stores are done, from the session that
// start-up in that bank gives.
fn update(
    rt: &impl Print,
    a: &mut [u8],
    booted: u32,
    guid: [u8; 16],
    most: usize,
) -> io::Result<()> {
    let session = started(rt, a, booted)?;
    let begun = step(rt, a, Call::Begin, session, ALL)?;
    let committed = step(rt, a, Call::Commit(guid), begun, ALL)?;
    step(rt, a, Call::End, committed, most)?;
    Ok(())
}

// A session is lost with the power: behind each cut or restart, start-up tells it anew.
fn updates(rt: &impl Print, a: &mut [u8], guid: [u8; 16]) -> io::Result<()> {
    println!(rt; "\nAn update. Power fails after 5 stores of its last call.")?;
    update(rt, a, 0, guid, 5)?;
    println!(rt;
        "\nPower is back. Copy 0 is half written: the old record is read, from copy 1, and repaired."
    )?;
    started(rt, a, 0)?;
    repaired(rt, a)?;
    println!(rt;
        "\nThe same update again, with all of its stores. The next start is in the new bank."
    )?;
    update(rt, a, 0, guid, ALL)?;
    started(rt, a, 1)?;
    Ok(())
}

fn main(rt: HostRuntime) -> io::Result<()> {
    let guid = parts::read_capsule(&rt)?;
    let mut area = [0u8; 16384];
    read_full(&mut rt.reader(), &mut area)?;
    updates(&rt, &mut area, guid)
}
