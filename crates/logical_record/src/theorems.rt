// What is proved of the whole records and tables of a stream, and of record places. The functions do nothing; their contracts are the
// claims, so that a check prints their names and fails if a proof goes.
ghost use Rattle.logical_record.specs.RecordClaims.{RecordsAre, RecordsFound, NoByteLost, TablesAre, TablesFound, NoRecordLost};
ghost use Rattle.logical_record.specs.RecordClaims.{BitRemembered, EveryPlaceCanEnd};

pub fn whole_records()
    ensures are { RecordsAre }
    ensures found { RecordsFound }
    ensures no_byte_lost { NoByteLost }
{}

pub fn whole_tables()
    ensures are { TablesAre }
    ensures found { TablesFound }
    ensures no_record_lost { NoRecordLost }
{}

pub fn record_places()
    ensures bit_remembered { BitRemembered }
    ensures can_end { EveryPlaceCanEnd }
{}
