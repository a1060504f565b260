// What the program prints for a job text: its answer text, or its refusal text (the scope paper, 'The job text').
#![tactic(auto)]

ghost use Rattle.printing.specs.Printouts.{Prints};

// The bytes to print stand at the front; zeros follow them. Fixed memory: without a heap the bytes and how many they are lie side by side.
#[derive(Drop)]
pub struct Printout {
    pub bytes: [u8; 4096],
    pub length: usize,
}

// What is printed for a text: the text call is lent all that it asks for, so that 7 and 8 are never given.
pub fn print_job(text: &[u8]) -> Printout
    ensures { Prints text.now result.bytes result.length }
{
    let mut bytes: [u8; 4096] = input::zeros();
    let mut work: [u32; 16384] = lists::zeros();
    match job::convert_text(text, &mut bytes, &mut work) {
        Ok(count) => {
            let length = count as usize;
            Printout { bytes, length }
        }
        Err(refusal) => {
            let length = writer::write_refusal(&mut bytes, u32::from(refusal));
            Printout { bytes, length }
        }
    }
}
