//! The device of a name: its text from the shelf, with a qubit for each wire of the program, and those of a list that is given.

ghost use Rattle.std.specs.Prelude.{◌≡◌, ◌≤◌, ◌<◌, ℕ, List, Err, IfErr, IfOk, false, length, true};
ghost use Rattle.command_line.specs.Demands.{told_list};
ghost use Rattle.outside_io.specs.Shelf.{TellsText};
ghost use Rattle.qroute_top.specs.Causes.{IsDeviceCause};
ghost use Rattle.qroute_top.specs.Devices.{Fits, IsDevice, most_device_bytes};
ghost use Rattle.qroute_top.specs.Stops.{IsUndescribed, unloaded};

use crate::stops::{DeviceRefusal, DeviceStop};
use command_line::commands::Begin;
use command_line::name::Name;
use coupling_map::{Device, DeviceError, read_device};
use outside_io::{Shelf, TextFault, load_text};
use std::alloc::Global;
use wire_starts::is_fitting;

/// The most bytes of a device text.
const MOST_DEVICE_BYTES: usize = 1_048_576;

/// Why a text of the shelf isn't had.
fn stop_of(fault: TextFault) -> DeviceStop
    ensures { result ≡ unloaded fault }
{
    match fault {
        TextFault::Failed => DeviceStop::Failed,
        TextFault::Absent => DeviceStop::Absent,
        TextFault::TooLong => DeviceStop::Refused(DeviceRefusal::TooLong),
        TextFault::NoMemory => DeviceStop::NoMemory,
    }
}

/// Whether the list of the qubits on which the wires begin, if one is given, fits them and a device of this size.
fn has_room(begin: &Begin, wires: u32, size: u32) -> bool
    ensures yes { result ≡ true → Fits (told_list begin.now) wires size }
    ensures no { result ≡ false → Fits (told_list begin.now) wires size → ⊥ }
{
    match begin {
        Begin::Listed(list) => is_fitting(list.as_slice(), wires, size),
        _ => true,
    }
}

/// The device of a text, with at least `wires` qubits, and those of a list that is given.
fn device_of(alloc: Global, text: &[u8], wires: u32, begin: &Begin) -> Result<Device, DeviceStop>
    requires { length text.now ≤ most_device_bytes }
    ensures ok { IfOk result (λ d. IsDevice text.now d × (wires ≤ d.size) × Fits (told_list begin.now) wires d.size) }
    ensures err { IfErr result (IsUndescribed text.now wires (told_list begin.now)) }
{
    match read_device(alloc, text) {
        Err(DeviceError::NoMemory) => Err(DeviceStop::NoMemory),
        Err(DeviceError::Refused(fault)) => Err(DeviceStop::Refused(DeviceRefusal::Fault(fault))),
        Ok(device) => {
            let size = device.size();
            if size < wires {
                return Err(DeviceStop::Refused(DeviceRefusal::TooFewQubits {
                    device: size,
                    qubits: wires,
                }));
            }
            if !has_room(begin, wires, size) {
                return Err(DeviceStop::Refused(DeviceRefusal::Initial {
                    device: size,
                    qubits: wires,
                }));
            }
            Ok(device)
        }
    }
}

/// The device of this name on the shelf, with at least `wires` qubits, and those of a list that is given.
#[tactic(auto, using(crate::proofs::DeviceLaws::shelves))]
pub fn load_device<F: Shelf>(
    alloc: Global,
    shelf: &mut F,
    name: &Name,
    wires: u32,
    begin: &Begin,
) -> Result<Device, DeviceStop>
    ensures ok { IfOk result (λ d. (text : List ℕ) × TellsText (F.content shelf.old name.now) text × IsDevice text d × (wires ≤ d.size) × Fits (told_list begin.now) wires d.size) }
    ensures err { IfErr result (IsDeviceCause (F.content shelf.old name.now) wires (told_list begin.now) (F.faults shelf.old) (F.faults shelf.new)) }
    ensures keeps { (other : List ℕ) → F.content shelf.new other ≡ F.content shelf.old other }
    ensures grows { F.faults shelf.old ≤ F.faults shelf.new }
    ensures calm { (result ≡ Err DeviceStop.Failed → ⊥) → F.faults shelf.new ≡ F.faults shelf.old }
{
    match load_text(alloc, shelf, name.as_str(), MOST_DEVICE_BYTES) {
        Err(fault) => Err(stop_of(fault)),
        Ok(text) => device_of(alloc, &text, wires, begin),
    }
}
