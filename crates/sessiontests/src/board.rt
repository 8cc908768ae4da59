// Counts of calls, by the number that refused them (0: accepted) or by what was wrong with them (0: nothing).
use std::io;
use words::Refusal;

// How many numbers a row of refusals has: they go from 0 to 19.
pub const REFUSALS: usize = 20;

// How many calls there were of each number from 0 to 31.
#[derive(Clone, Copy, Default)]
pub struct Row {
    counts: [u64; 32],
}

impl Row {
    // One call more.
    pub fn add(&mut self, number: usize) {
        if let Some(count) = self.counts.get_mut(number) {
            *count = count.wrapping_add(1);
        }
    }

    // One call more, by what refused it.
    pub fn tell(&mut self, refused: Option<Refusal>) {
        self.add(refused.map_or(0, |refusal| usize::from(refusal.number())));
    }

    // The first counts of a row, after a name.
    pub fn print(&self, rt: &impl Print, name: &[u8], numbers: usize) -> io::Result<()> {
        rt.write_all(name)?;
        for count in self.counts.iter().take(numbers) {
            print!(rt; " {count}")?;
        }
        println!(rt)
    }
}
