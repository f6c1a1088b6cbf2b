// Which digits that are not decided yet are erased. Both receiving sessions keep this beside their other registers.
ghost use Rattle.std.specs.Prelude.{◌≡◌, ◌/◌};
ghost use Rattle.code.specs.ErasedDigits.{any_with, erased_with, erased_moved};

// The marks of a frame, put in at a place. What is handed back is `any` with the frame.
pub fn put(registers: &mut [u32], any: u32, marks: u32, place: usize) -> u32
    ensures { (result ≡ any_with any marks place) × (registers.new ≡ erased_with registers.old any marks place) }
{
    let next = any ^ bits::shift_up(marks.min(1), place);
    if next != 0 {
        crate::put_digits(registers, marks, place);
    }
    next
}

// The registers for the next frame. What is handed back is `any` for it.
pub fn move_on(registers: &mut [u32], any: u32) -> u32
    ensures { (result ≡ any / 2) × (registers.new ≡ erased_moved registers.old any) }
{
    if any != 0 {
        crate::move_on(registers);
    }
    any >> 1
}

// The digit of stream s, a frames after the one that is decided next, is erased if digit a of register s is 1, and digit a of `any` is 1 if a digit of
// that frame is. While `any` is 0 the registers are not looked at.
#[derive(Clone, Copy)]
// `any` is no Option: it has a digit for each frame, and moves on with them.
pub struct Erased {
    pub registers: [u32; 8],
    pub any: u32,
}

impl Erased {
    // The marks of a frame, put in at a place.
    pub fn put(&mut self, marks: u32, place: usize)
        ensures any { self.new.any ≡ any_with self.old.any marks place }
        ensures registers { self.new.registers ≡ erased_with self.old.registers self.old.any marks place }
    {
        self.any = put(&mut self.registers, self.any, marks, place);
    }

    // On to the next frame.
    pub fn move_on(&mut self)
        ensures any { self.new.any ≡ self.old.any / 2 }
        ensures registers { self.new.registers ≡ erased_moved self.old.registers self.old.any }
    {
        self.any = move_on(&mut self.registers, self.any);
    }
}
