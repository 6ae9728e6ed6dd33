// Gathering the capsule, and its parts line by line.
use gather::Gathered;
use reading::read_full;
use std::io;

// The address of the window's first byte, and of the first descriptor.
const BASE: u64 = 0x1000;

// The 16 bytes as they are stored.
fn show_guid(rt: &impl Print, guid: [u8; 16]) -> io::Result<()> {
    for byte in guid {
        print!(rt; "{byte:02x}")?;
    }
    Ok(())
}

// Item k: whether it is refused, and how long its parts are.
fn show_lengths(rt: &impl Print, s: &[u8], k: usize) -> io::Result<()> {
    print!(rt; "item {k}: ")?;
    match capsule_items::refusal(s, k) {
        Ok(()) => print!(rt; "good")?,
        Err(why) => print!(rt; "{why}")?,
    }
    let length = capsule_items::item(s, k).len();
    let image = capsule_parts::image(s, k).len();
    let code = capsule_parts::vendor_code(s, k).len();
    print!(rt; ", length {length}, image {image}, vendor code {code}")
}

// What is shown of it, and in lines of their own its image and its vendor code, which are text in the sample.
fn show_parts(rt: &impl Print, s: &[u8], k: usize) -> io::Result<()> {
    let index = capsule_values::image_index(s, k);
    let instance = capsule_values::hardware_instance(s, k);
    print!(rt; ", index {index}, instance {instance}, type GUID ")?;
    show_guid(rt, capsule_values::type_guid(s, k))?;
    print!(rt; "\n  image \"")?;
    rt.write_all(capsule_parts::image(s, k))?;
    print!(rt; "\", vendor code \"")?;
    rt.write_all(capsule_parts::vendor_code(s, k))?;
    println!(rt; "\"")
}

fn show_item(rt: &impl Print, s: &[u8], k: usize) -> io::Result<()> {
    show_lengths(rt, s, k)?;
    show_parts(rt, s, k)
}

// A capsule of one driver and one payload; the answer is the payload's type GUID.
fn show_capsule(rt: &impl Print, s: &[u8]) -> io::Result<[u8; 16]> {
    let drivers = capsule_counts::driver_count(s);
    let payloads = capsule_counts::payload_count(s);
    println!(rt; "capsule: drivers {drivers}, payloads {payloads}")?;
    show_item(rt, s, 0)?;
    show_item(rt, s, 1)?;
    Ok(capsule_values::type_guid(s, 1))
}

// The capsule at its place in the window.
fn taken_apart(rt: &impl Print, w: &[u8], place: Gathered) -> io::Result<[u8; 16]> {
    if place.address < BASE {
        return Ok([0u8; 16]);
    }
    let from = (place.address - BASE) as usize;
    let n = place.total as usize;
    if w.len() < from || w.len() - from < n {
        return Ok([0u8; 16]);
    }
    show_capsule(rt, &w[from..from + n])
}

// Reads the window, gathers the capsule there and prints its parts. The answer is the payload's type GUID, or zeros
// where there is none.
pub fn read_capsule(rt: &(impl Print + Input)) -> io::Result<[u8; 16]> {
    let mut window = [0u8; 512];
    read_full(&mut rt.reader(), &mut window)?;
    print!(rt; "gather: ")?;
    match gather::gather(&mut window, BASE, BASE) {
        Ok(place) => {
            println!(rt; "placed at 0x{:04x}, total {}", place.address, place.total)?;
            taken_apart(rt, &window, place)
        }
        Err(why) => {
            println!(rt; "{why}")?;
            Ok([0u8; 16])
        }
    }
}
