//! The forms of a script's line, each right and in each wrong way.

use crate::script_notation::assert_told;
use std::process::Abort;

/// A script in the notation of tables, a semicolon, and its lines as they are written again, or its fault. The text of a want
/// is worked by hand from the forms.
const SCRIPTS: &str = "\
# doors
{'accept':'inbound'}; {'accept':'inbound'}|
{'accept':'outbound'}; {'accept':'outbound'}|
{'accept':'plain'}; {'accept':'plain'}|
{'accept':'in'}; line 1: bad value
{'accept':'Inbound'}; line 1: bad value
{'accept':''}; line 1: bad value
{'accept':1}; line 1: bad value
{'accept':true}; line 1: bad value
{'accept':null}; line 1: bad value
{'accept':['inbound']}; line 1: bad value
{'accept':'plain','link':1}; line 1: bad keys
# open
{'open':1}; {'open':1}|
{'open':9223372036854775807}; {'open':9223372036854775807}|
{'open':0}; line 1: bad value
{'open':9223372036854775808}; line 1: bad value
{'open':-1}; line 1: bad value
{'open':-0}; line 1: bad value
{'open':1.0}; line 1: bad value
{'open':1e2}; line 1: bad value
{'open':'1'}; line 1: bad value
{'open':true}; line 1: bad value
{'open':null}; line 1: bad value
{'open':[1]}; line 1: bad value
{'open':{}}; line 1: bad value
{'open':1e400}; line 1: not json
{'open':18446744073709551616}; line 1: bad value
{'open':01}; line 1: not json
{'open':+1}; line 1: not json
{'open':}; line 1: not json
{'open':1,'room':1}; line 1: bad keys
{'open':1,'link':1}; line 1: bad keys
# refuse
{'refuse':1}; {'refuse':1}|
{'refuse':9223372036854775807}; {'refuse':9223372036854775807}|
{'refuse':0}; line 1: bad value
{'refuse':9223372036854775808}; line 1: bad value
{'refuse':-1}; line 1: bad value
{'refuse':-0}; line 1: bad value
{'refuse':1.0}; line 1: bad value
{'refuse':1e2}; line 1: bad value
{'refuse':'1'}; line 1: bad value
{'refuse':true}; line 1: bad value
{'refuse':null}; line 1: bad value
{'refuse':[1]}; line 1: bad value
{'refuse':{}}; line 1: bad value
{'refuse':1e400}; line 1: not json
{'refuse':18446744073709551616}; line 1: bad value
{'refuse':01}; line 1: not json
{'refuse':+1}; line 1: not json
{'refuse':}; line 1: not json
{'refuse':1,'room':1}; line 1: bad keys
{'refuse':1,'link':1}; line 1: bad keys
# end
{'end':1}; {'end':1}|
{'end':9223372036854775807}; {'end':9223372036854775807}|
{'end':0}; line 1: bad value
{'end':9223372036854775808}; line 1: bad value
{'end':-1}; line 1: bad value
{'end':-0}; line 1: bad value
{'end':1.0}; line 1: bad value
{'end':1e2}; line 1: bad value
{'end':'1'}; line 1: bad value
{'end':true}; line 1: bad value
{'end':null}; line 1: bad value
{'end':[1]}; line 1: bad value
{'end':{}}; line 1: bad value
{'end':1e400}; line 1: not json
{'end':18446744073709551616}; line 1: bad value
{'end':01}; line 1: not json
{'end':+1}; line 1: not json
{'end':}; line 1: not json
{'end':1,'room':1}; line 1: bad keys
{'end':1,'link':1}; line 1: bad keys
# break
{'break':1}; {'break':1}|
{'break':9223372036854775807}; {'break':9223372036854775807}|
{'break':0}; line 1: bad value
{'break':9223372036854775808}; line 1: bad value
{'break':-1}; line 1: bad value
{'break':-0}; line 1: bad value
{'break':1.0}; line 1: bad value
{'break':1e2}; line 1: bad value
{'break':'1'}; line 1: bad value
{'break':true}; line 1: bad value
{'break':null}; line 1: bad value
{'break':[1]}; line 1: bad value
{'break':{}}; line 1: bad value
{'break':1e400}; line 1: not json
{'break':18446744073709551616}; line 1: bad value
{'break':01}; line 1: not json
{'break':+1}; line 1: not json
{'break':}; line 1: not json
{'break':1,'room':1}; line 1: bad keys
{'break':1,'link':1}; line 1: bad keys
# pieces
{'bytes':'00','link':1}; {'bytes':'00','link':1}|
{'bytes':'0123456789abcdef','link':9223372036854775807}; {'bytes':'0123456789abcdef','link':9223372036854775807}|
{'bytes':'0aFf','link':2}; {'bytes':'0aff','link':2}|
{'link':3,'bytes':'61'}; {'bytes':'61','link':3}|
{'bytes':'','link':1}; line 1: bad value
{'bytes':1,'link':1}; line 1: bad value
{'bytes':null,'link':1}; line 1: bad value
{'bytes':true,'link':1}; line 1: bad value
{'bytes':['00'],'link':1}; line 1: bad value
{'bytes':'0','link':1}; line 1: bad hex
{'bytes':'000','link':1}; line 1: bad hex
{'bytes':'0g','link':1}; line 1: bad hex
{'bytes':'g0','link':1}; line 1: bad hex
{'bytes':' 00','link':1}; line 1: bad hex
{'bytes':'0x00','link':1}; line 1: bad hex
{'bytes':'00\\n','link':1}; line 1: bad hex
{'bytes':'é0','link':1}; line 1: bad hex
{'bytes':'\\u0030a','link':1}; {'bytes':'0a','link':1}|
{'bytes':'00','link':0}; line 1: bad value
{'bytes':'00','link':9223372036854775808}; line 1: bad value
{'bytes':'00','link':-1}; line 1: bad value
{'bytes':'00','link':1.0}; line 1: bad value
{'bytes':'00','link':1e0}; line 1: bad value
{'bytes':'00','link':'1'}; line 1: bad value
{'bytes':'00','link':null}; line 1: bad value
{'bytes':'0','link':0}; line 1: bad value
{'bytes':'0g','link':1.0}; line 1: bad value
{'bytes':'00'}; line 1: bad keys
{'link':1}; line 1: bad keys
{'bytes':'00','link':1,'room':1}; line 1: bad keys
{'bytes':'00','end':1}; line 1: bad keys
{'Bytes':'00','link':1}; line 1: bad keys
{'bytes':'0','links':0}; line 1: bad keys
# rooms
{'link':1,'room':0}; {'link':1,'room':0}|
{'link':9223372036854775807,'room':9223372036854775807}; {'link':9223372036854775807,'room':9223372036854775807}|
{'room':5,'link':4}; {'link':4,'room':5}|
{'link':1,'room':9223372036854775808}; line 1: bad value
{'link':1,'room':-1}; line 1: bad value
{'link':1,'room':-0}; line 1: bad value
{'link':1,'room':0.0}; line 1: bad value
{'link':1,'room':0e0}; line 1: bad value
{'link':1,'room':'0'}; line 1: bad value
{'link':1,'room':null}; line 1: bad value
{'link':0,'room':0}; line 1: bad value
{'room':0}; line 1: bad keys
{'link':1,'rooms':0}; line 1: bad keys
{'link':0,'room':0,'x':0}; line 1: bad keys
# dials
{'nodial':0}; {'nodial':0}|
{'nodial':9223372036854775807}; {'nodial':9223372036854775807}|
{'nodial':9223372036854775808}; line 1: bad value
{'nodial':-0}; line 1: bad value
{'nodial':-1}; line 1: bad value
{'nodial':1.0}; line 1: bad value
{'nodial':1e2}; line 1: bad value
{'nodial':'1'}; line 1: bad value
{'nodial':true}; line 1: bad value
{'nodial':1,'link':1}; line 1: bad keys
# wake
{'wake':true}; {'wake':true}|
{'wake':false}; line 1: bad value
{'wake':1}; line 1: bad value
{'wake':'true'}; line 1: bad value
{'wake':null}; line 1: bad value
{'wake':[true]}; line 1: bad value
{'wake':true,'x':1}; line 1: bad keys
# tick
{'tick':true}; {'tick':true}|
{'tick':false}; line 1: bad value
{'tick':1}; line 1: bad value
{'tick':'true'}; line 1: bad value
{'tick':null}; line 1: bad value
{'tick':[true]}; line 1: bad value
{'tick':true,'x':1}; line 1: bad keys
# stop
{'stop':true}; {'stop':true}|
{'stop':false}; line 1: bad value
{'stop':1}; line 1: bad value
{'stop':'true'}; line 1: bad value
{'stop':null}; line 1: bad value
{'stop':[true]}; line 1: bad value
{'stop':true,'x':1}; line 1: bad keys
# faults
{'fault':'wait'}; {'fault':'wait'}|
{'fault':'listen'}; {'fault':'listen'}|
{'fault':'read'}; line 1: bad value
{'fault':'Wait'}; line 1: bad value
{'fault':''}; line 1: bad value
{'fault':true}; line 1: bad value
{'fault':1}; line 1: bad value
{'fault':'wait','link':1}; line 1: bad keys
# rows that are no JSON, no object or of no form
x; line 1: not json
{; line 1: not json
{'open':1; line 1: not json
{'open':1}}; line 1: not json
{'open':1} x; line 1: not json
{open:1}; line 1: not json
{'open':1,}; line 1: not json
{'open':tru}; line 1: not json
'; line 1: not json
nul; line 1: not json
{'wake':true}^^x; line 1: not json
!; line 1: not json
{'open':!}; line 1: not json
{'open':'!'}; line 1: not json
{'open':'\\ud800'}; line 1: not json
1; line 1: not an object
'x'; line 1: not an object
true; line 1: not an object
null; line 1: not an object
[]; line 1: not an object
[{'open':1}]; line 1: not an object
-1.5; line 1: not an object
{}; line 1: bad keys
{'':1}; line 1: bad keys
{'opens':1}; line 1: bad keys
{'Open':1}; line 1: bad keys
{'open ':1}; line 1: bad keys
{'wake':true,'tick':true}; line 1: bad keys
{'version':2}; line 1: bad keys
{'open':1,'a':1,'b':1,'c':1}; line 1: bad keys
 ; line 1: not json
\t; line 1: not json
^; line 1: not json
# a key twice: its last value stays
{'open':1,'open':2}; {'open':2}|
{'open':0,'open':1}; {'open':1}|
{'open':1,'open':0}; line 1: bad value
{'wake':false,'wake':true}; {'wake':true}|
{'link':9,'room':1,'link':2}; {'link':2,'room':1}|
# nested 127 deep, 128 deep
{'open':<>}; line 1: bad value
{'open':[<>]}; line 1: not json
{'x':<>}; line 1: bad keys
{'x':[<>]}; line 1: not json
# blanks and escapes
 { 'open' : 1 } ; {'open':1}|
{'open':1}^; {'open':1}|
{'\\u006fpen':1}; {'open':1}|
# rows, their ends and their numbers
; 
|; 
|||; 
{'open':1}; {'open':1}|
{'open':1}|; {'open':1}|
||{'open':1}||{'end':2}; {'open':1}|{'end':2}|
{'wake':true}^|{'stop':true}^; {'wake':true}|{'stop':true}|
{'open':1}|x; line 2: not json
||x|; line 3: not json
{'open':0}|x; line 1: bad value
x|{'open':0}; line 1: not json
{'open':1}||{'a':1}|{'open':0}|x; line 3: bad keys
{'open':1}|^|{'open':1}; line 2: not json
{'open':1}| |; line 2: not json
{'open':1}{'open':2}; line 1: not json
{'open':|1}; line 1: not json
{'open':1}|{'bytes':'0','link':1}; line 2: bad hex";

fn assert_row(rt: &(impl Abort + AllocGlobal), row: &str) {
    let (script, want) = row.rsplit_once("; ").expect(rt, "a semicolon");
    assert_told(rt, script, want);
}

#[test]
fn scripts_tell_what_they_want(rt: HostRuntime) {
    for row in SCRIPTS.lines() {
        if !row.starts_with('#') {
            assert_row(&rt, row);
        }
    }
}
