//! Why a source, a timed list or a board is refused.
use crate::fault::LabFault;
use rv_answers::Printer;
use rv_base::NoMemory;
use rv_board::BootFault;
use rv_diagnosis::{append_report, diagnose};

/// Appends what is wrong with each faulty line of a source, as compilers print it.
fn report(file: &str, source: &[u8], answer: &mut Printer) {
    let alloc = answer.alloc();
    let mut text = Vec::new(alloc);
    let reported = match diagnose(alloc, source) {
        Ok(all) => append_report(alloc, file, source, &all, &mut text),
        Err(NoMemory) => Err(NoMemory),
    };
    answer.put(text.as_slice());
    if reported.is_err() {
        answer.cut();
    }
}

/// Appends why there is no lab: of a source each faulty line of its first phase that has one, as compilers
/// print them.
pub fn append_diagnosis(file: &str, source: &[u8], fault: LabFault, answer: &mut Printer) {
    match fault {
        LabFault::Source(_) => report(file, source, answer),
        LabFault::Input(line) => {
            answer.say("input line ");
            answer.number(line as u64);
            answer.say(
                ": refused: it is no STEP rx HH .. or STEP line N V, or STEP is lower than before\n",
            );
        }
        LabFault::Board(BootFault::ImageTooLarge) => {
            answer.say("image too large for the pages: --pages P gives more\n");
        }
        LabFault::Board(BootFault::BadPages) => answer.say("bad pages: 1 to 4096 are wanted\n"),
        LabFault::Board(_) => answer.say("bad slots: a power of two from 64 to 4096 is wanted\n"),
        LabFault::OutOfMemory => answer.say("out of memory\n"),
    }
}
