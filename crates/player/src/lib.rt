// The player: from instructions and a patch to the lamps that are lit.
//
// A set of 512 lamps is 8 words of 64 lamps. Each group that the patch names has a place among at most 4,097 sets, and an index says
// which: it alone, two bytes for each number, is as large as the range of groups. Each instruction is decoded once.
#![tactic(auto)]

ghost use Rattle.std.specs.Prelude.{◌≡◌, false, List, ◌++◌, ℕ, ◌+◌, ◌≤◌, ◌<◌, eqb, leb, length, get_or, drop};
ghost use Rattle.player.specs.Limits.{register_count, last_group, last_lamp, most_pairs, byte_count, outside};
ghost use Rattle.player.specs.Instructions.{Lamps, Rig, Registers, add, combined, empty, put, step, operation_with};
ghost use Rattle.player.specs.Patches.{rig};
ghost use Rattle.player.specs.Bytes.{bytes};
ghost use Rattle.player.specs.Playing.{refusal_number, wrong_length, wrong_instruction, wrong_code, wrong_pair_count, wrong_pair, wrong_patch, patch_fault, Plays};
ghost use Rattle.player.specs.InnerWords.{word, HoldsSet, HoldsSets, Indexed, HoldsGroups, Placed};
ghost use Rattle.player.specs.InnerChecks.{fault_of, lengths_fault};
ghost use Rattle.player.specs.InnerForms.{left_of, instruction_at, CanStep, CanRun, shown_by};

// 01's limits: the registers, the last group (02's, request 4) and the last lamp, the bytes written, the instructions and the pairs.
pub const REGISTERS: usize = 13;

pub const GROUPS: usize = 60000;

const LAMPS: usize = 512;

pub const BYTES: usize = 64;

const INSTRUCTIONS: usize = 8191;

const PAIRS: usize = 4096;

// 01's kinds of instruction: "LOAD (1) target, group, 0. ADD (2) target, s, t: union of registers s and t. CUT (3) target,
// s, t: s without t." Request 6's: "the player gains BOTH (kind 4)", the lamps in both. They are numbers and no enum, as code is: "An
// instruction is four 16-bit numbers", any numbers.
pub const LOAD: u16 = 1;

pub const ADD: u16 = 2;

pub const CUT: u16 = 3;

pub const BOTH: u16 = 4;

// The lamps of a word, and the words of a set.
const WIDTH: usize = 64;

const WORDS: usize = LAMPS / WIDTH;

// A set of lamps, 64 to a word, from lamp 1 on.
type LampSet = [u64; WORDS];

// The places for sets: place 0, where the set is empty, for the groups that no pair names, and one for each pair.
const PLACES: usize = PAIRS + 1;

// What a player refuses a call for.
#[derive(Clone, Copy, Debug, PartialEq, Eq)]
pub enum Refusal {
    // fewer than 64 bytes
    ShortBuffer,
    // code of no instruction or of too many, or of a length that four does not divide
    WrongLength,
    // an instruction that breaks the rules
    WrongInstruction,
    // a patch of odd length or of too many pairs
    WrongPairCount,
    // a pair out of range
    WrongPair,
}

// 01's number.
impl From<Refusal> for u16 {
    ghost from_gives = { λ refusal number. number ≡ refusal_number refusal };

    fn from(refusal: Refusal) -> u16 {
        match refusal {
            Refusal::ShortBuffer => 21,
            Refusal::WrongLength => 22,
            Refusal::WrongInstruction => 23,
            Refusal::WrongPairCount => 24,
            Refusal::WrongPair => 25,
        }
    }
}

// How many registers an operation names: three, as ours does, or two, of which the first is the target and the left operand.
#[derive(Clone, Copy, Debug, PartialEq, Eq)]
pub enum Form {
    ThreeRegisters,
    TwoRegisters,
}

impl Form {
    // The place of the left operand among an operation's numbers. The right one follows.
    fn left(self) -> usize
        ensures { result ≡ left_of self }
    {
        match self {
            Form::ThreeRegisters => 2,
            Form::TwoRegisters => 1,
        }
    }
}

// Of 64 lamps, the union of two sets for ADD, the first without the second for CUT, the lamps in both for BOTH. By the kind's number: an
// enum made of it for each instruction was tried, and took 4% more instructions in all.
fn combine_words(kind: u16, x: u64, y: u64) -> u64
    ensures { (f g : Lamps) (first : ℕ) → x ≡ word f first → y ≡ word g first → result ≡ word (combined (operation_with kind) f g) first }
{
    match kind {
        ADD => x | y,
        CUT => x & !y,
        _ => x & y,
    }
}

// The union of two sets for ADD, the first without the second for CUT, the lamps in both for BOTH.
fn combine(kind: u16, x: LampSet, y: LampSet) -> LampSet
    ensures { (f g : Lamps) → HoldsSet x f → HoldsSet y g → HoldsSet result (combined (operation_with kind) f g) }
{
    let mut words = [0u64; WORDS];
    for (i, word) in words.iter_mut().enumerate() {
        *word = combine_words(kind, x[i], y[i]);
    }
    words
}

// Puts a lamp into a set.
fn light(set: &mut LampSet, lamp: usize)
    requires { (1 ≤ lamp) × (lamp ≤ last_lamp) }
    ensures { (f : Lamps) → HoldsSet set.old f → HoldsSet set.new (combined add (eqb lamp) f) }
{
    set[(lamp - 1) / WIDTH] |= 1u64 << ((lamp - 1) % WIDTH);
}

// The lamps of each group: its place among the sets, 0 if it has none, and the sets. So many places are given, the first behind 0.
#[derive(Drop)]
struct Groups {
    index: [u16; GROUPS + 1],
    sets: [LampSet; PLACES],
    given: usize,
    ghost indexed: { Indexed index sets },
}

impl Groups {
    // A group's place: the next one, if it has none yet.
    fn place(&mut self, group: usize) -> usize
        requires { (group ≤ last_group) × (self.old.given < most_pairs) }
        ensures { (result ≡ get_or self.new.index group 0) × (result ≡ 0 → ⊥) × (self.new.given ≤ self.old.given + 1)
            × ((G : Rig) → Placed G self.old.index self.old.sets self.old.given → Placed G self.new.index self.new.sets self.new.given) }
    {
        if self.index[group] == 0 {
            self.given += 1;
            self.index[group] = self.given as u16;
        }
        usize::from(self.index[group])
    }

    // Puts a lamp into a group.
    fn add(&mut self, group: usize, lamp: usize)
        requires { (group ≤ last_group) × (1 ≤ lamp) × (lamp ≤ last_lamp) × (self.old.given < most_pairs) }
        ensures { (self.new.given ≤ self.old.given + 1)
            × ((G : Rig) → Placed G self.old.index self.old.sets self.old.given
            → Placed (put G group (combined add (eqb lamp) (G group))) self.new.index self.new.sets self.new.given) }
    {
        let place = self.place(group);
        light(&mut self.sets[place], lamp);
    }

    // What a patch gives the groups.
    fn load(&mut self, patch: &[u16])
        requires { (wrong_pair_count (length patch.now) ≡ false) × (wrong_patch patch.now ≡ false)
            × Placed empty self.old.index self.old.sets 0 × (self.old.given ≡ 0) }
        ensures { HoldsGroups self.new.index self.new.sets (rig patch.now) }
    {
        let (pairs, _) = patch.as_chunks::<2>();
        for &[group, lamp] in pairs {
            self.add(usize::from(group), usize::from(lamp));
        }
    }

    // The lamps of a group.
    fn lamps(&self, group: usize) -> LampSet
        requires { group ≤ last_group }
        ensures { (G : Rig) → HoldsGroups self.now.index self.now.sets G → HoldsSet result (G group) }
    {
        self.sets[usize::from(self.index[group])]
    }
}

// Carries out an instruction.
fn step(registers: &mut [LampSet; REGISTERS], four: &[u16; 4], form: Form, groups: &Groups)
    requires { CanStep form four.now registers.old }
    ensures { (length registers.new ≡ register_count)
        × ((G : Rig) (R : Registers) → HoldsGroups groups.now.index groups.now.sets G → HoldsSets registers.old R
        → HoldsSets registers.new (step G (instruction_at form four.now) R)) }
{
    let kind = four[0];
    let target = usize::from(four[1]);
    if kind == LOAD {
        registers[target] = groups.lamps(usize::from(four[2]));
    } else {
        let left = form.left();
        let s = usize::from(four[left]);
        let t = usize::from(four[left + 1]);
        registers[target] = combine(kind, registers[s], registers[t]);
    }
}

// Register `shown` after all the instructions.
fn execute(code: &[u16], form: Form, shown: usize, groups: &Groups) -> LampSet
    requires { CanRun form code.now shown }
    ensures { (G : Rig) → HoldsGroups groups.now.index groups.now.sets G → HoldsSet result (shown_by form code.now shown G) }
{
    let mut registers = [[0u64; WORDS]; REGISTERS];
    let (fours, _) = code.as_chunks::<4>();
    for four in fours {
        step(&mut registers, four, form, groups);
    }
    registers[shown]
}

// The same, with what the patch gives the groups.
fn answer(code: &[u16], form: Form, shown: usize, patch: &[u16]) -> LampSet
    requires { CanRun form code.now shown × (wrong_pair_count (length patch.now) ≡ false) × (wrong_patch patch.now ≡ false) }
    ensures { HoldsSet result (shown_by form code.now shown (rig patch.now)) }
{
    let mut groups = Groups {
        index: [0; GROUPS + 1],
        sets: [[0; WORDS]; PLACES],
        given: 0,
    };
    groups.load(patch);
    execute(code, form, shown, &groups)
}

// Writes a set into the first 64 bytes, eight lamps to a byte.
fn write_bytes(words: LampSet, lamps: &mut [u8])
    requires { byte_count ≤ length lamps.old }
    ensures { (f : Lamps) → HoldsSet words f → lamps.new ≡ bytes f ++ drop byte_count lamps.old }
{
    for (i, word) in words.iter().enumerate() {
        lamps[8 * i..8 * i + 8].copy_from_slice(&word.to_le_bytes());
    }
}

// Carries out the instructions, and writes the lamps of register `shown` into the first 64 bytes. Both players call it, so that it is
// compiled into one function.
pub fn write_lamps(code: &[u16], form: Form, shown: usize, patch: &[u16], lamps: &mut [u8])
    requires { CanRun form code.now shown × (wrong_pair_count (length patch.now) ≡ false) × (wrong_patch patch.now ≡ false)
        × (byte_count ≤ length lamps.old) }
    ensures { lamps.new ≡ bytes (shown_by form code.now shown (rig patch.now)) ++ drop byte_count lamps.old }
{
    let words = answer(code, form, shown, patch);
    write_bytes(words, lamps);
}

// Refuses too few bytes, and code of a wrong length for a device that takes so many instructions at most.
pub fn check_lengths(code: &[u16], most: usize, lamps: &[u8]) -> Result<(), Refusal>
    ensures { fault_of result ≡ lengths_fault (wrong_length most (length code.now)) (length lamps.now) }
{
    if lamps.len() < BYTES {
        return Err(Refusal::ShortBuffer);
    }
    if code.is_empty() || most < code.len() / 4 || code.len() % 4 != 0 {
        return Err(Refusal::WrongLength);
    }
    Ok(())
}

// Is there no such register?
pub fn wrong_register(number: u16) -> bool
    ensures { result ≡ leb register_count number }
{
    REGISTERS <= usize::from(number)
}

// Is there no such group?
pub fn wrong_group(number: u16) -> bool
    ensures { result ≡ outside 1 last_group number }
{
    !(1..=GROUPS).contains(&usize::from(number))
}

// Fault 23 of one instruction; s is LOAD's group.
fn wrong_instruction(four: &[u16; 4]) -> bool
    ensures { result ≡ wrong_instruction (get_or four.now 0 0) (get_or four.now 1 0) (get_or four.now 2 0) (get_or four.now 3 0) }
{
    let [kind, target, s, t] = *four;
    match kind {
        LOAD => wrong_register(target) || wrong_group(s) || t != 0,
        ADD | CUT | BOTH => wrong_register(target) || wrong_register(s) || wrong_register(t),
        _ => true,
    }
}

// Fault 23.
fn wrong_code(code: &[u16]) -> bool
    ensures { result ≡ wrong_code code.now }
{
    let (fours, _) = code.as_chunks::<4>();
    fours.iter().any(wrong_instruction)
}

// Fault 25 of one pair.
fn wrong_pair(pair: &[u16; 2]) -> bool
    ensures { result ≡ wrong_pair (get_or pair.now 0 0) (get_or pair.now 1 0) }
{
    let [group, lamp] = *pair;
    wrong_group(group) || !(1..=LAMPS).contains(&usize::from(lamp))
}

// Fault 25.
fn wrong_patch(patch: &[u16]) -> bool
    ensures { result ≡ wrong_patch patch.now }
{
    let (pairs, _) = patch.as_chunks::<2>();
    pairs.iter().any(wrong_pair)
}

// Refuses a patch of odd length or of too many pairs, and a pair out of range.
pub fn check_patch(patch: &[u16]) -> Result<(), Refusal>
    ensures { fault_of result ≡ patch_fault patch.now }
{
    if patch.len() % 2 != 0 || 2 * PAIRS < patch.len() {
        return Err(Refusal::WrongPairCount);
    }
    if wrong_patch(patch) {
        return Err(Refusal::WrongPair);
    }
    Ok(())
}

// Runs the code with what the patch gives the groups, and writes the lamps that are lit into the first 64 bytes of `lamps`;
// or refuses by the first fault and writes nothing.
pub fn play(code: &[u16], patch: &[u16], lamps: &mut [u8]) -> Result<(), Refusal>
    ensures { Plays code.now patch.now lamps.old result lamps.new }
{
    check_lengths(code, INSTRUCTIONS, lamps)?;
    if wrong_code(code) {
        return Err(Refusal::WrongInstruction);
    }
    check_patch(patch)?;
    write_lamps(code, Form::ThreeRegisters, 0, patch, lamps);
    Ok(())
}
