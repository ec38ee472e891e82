// What the formats of a trace keep, in the words of those who use them. Nothing here runs: each contract holds laws of the very
// definitions that the contracts of the sources cite, so that the laws are about what the sources deliver.

#![tactic(auto)]

ghost use Rattle.trace_laws.specs.ByteLaws.{BytesReadBack, BytesWithin, BytesBefore, BytesAfter};
ghost use Rattle.trace_laws.specs.Spelling.{SpellingsRead, OnlySpellingsRead};
ghost use Rattle.trace_laws.specs.TableLaws.{TableRead, TableWithin, TableFront, TableBefore, TableAfter};
ghost use Rattle.trace_laws.specs.TextLaws.{TextReadBack, TextWithin, TextBefore, TextAfter, TextEnded};

// What holds of all bytes.
pub fn byte_laws()
    ensures spelled { SpellingsRead }
    ensures only_spelled { OnlySpellingsRead }
    ensures read_back { BytesReadBack }
    ensures within { BytesWithin }
    ensures before { BytesBefore }
    ensures after { BytesAfter }
{}

// What holds of all texts.
pub fn text_laws()
    ensures read_back { TextReadBack }
    ensures within { TextWithin }
    ensures before { TextBefore }
    ensures after { TextAfter }
    ensures ended { TextEnded }
{}

// What holds of all tables.
pub fn table_laws()
    ensures read { TableRead }
    ensures within { TableWithin }
    ensures front { TableFront }
    ensures before { TableBefore }
    ensures after { TableAfter }
{}
