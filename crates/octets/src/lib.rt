// Octets: numbers with the highest octet first, and XOR of runs of octets.
#![tactic(auto)]

pub mod hex;
pub mod numbers;
pub mod runs;

ghost use Rattle.octets.specs.Laws.{
  ValueOfOctets,
  OctetsOfValue,
  ValueBelow,
  LengthOfOctets,
  OctetsAreOctets,
  RunIsPart,
  NumberBelow,
  NumberOfWhole,
  OverKeepsLength,
  OverIsRead,
  OverKeepsBefore,
  OverKeepsAfter,
  XorKeepsLength,
  XorKeepsOctets,
  XorTwice,
  XorSwaps,
};

// The laws of numbers in octets; there is nothing to compute.
pub fn number_laws_hold()
    ensures value_of_octets { ValueOfOctets }
    ensures octets_of_value { OctetsOfValue }
    ensures value_below { ValueBelow }
    ensures length_of_octets { LengthOfOctets }
    ensures octets_are_octets { OctetsAreOctets }
{}

// The laws of runs, of writing over a part, and of XOR.
pub fn run_laws_hold()
    ensures run_is_part { RunIsPart }
    ensures number_of_whole { NumberOfWhole }
    ensures number_below { NumberBelow }
    ensures over_keeps_length { OverKeepsLength }
    ensures over_is_read { OverIsRead }
    ensures over_keeps_before { OverKeepsBefore }
    ensures over_keeps_after { OverKeepsAfter }
    ensures xor_keeps_length { XorKeepsLength }
    ensures xor_keeps_octets { XorKeepsOctets }
    ensures xor_twice { XorTwice }
    ensures xor_swaps { XorSwaps }
{}
