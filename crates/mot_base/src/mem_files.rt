ghost use Rattle.std.specs.Prelude.{◌≡◌, ◌≢◌, ℕ, ◌<◌, ◌≤◌, ◌↔◌, ◌++◌, ◌∷◌, [], List, length, map, Some, IfOk, OnOk, OnErr, IsErrOf, IsTrue, vec_len, vec_items, string_bytes, position};
ghost use Rattle.std.specs.Option.{option_copied};
ghost use Rattle.std.specs.Str.{bytes_eq};
ghost use Rattle.mot_base.specs.Faults.{Rose};
ghost use Rattle.mot_base.specs.Files.{IsAnswerFor};
ghost use Rattle.mot_base.specs.Limits.{most_file_bytes};
ghost use Rattle.mot_base.specs.Calls.{has_failed, load_call, store_call};
ghost use Rattle.mot_base.specs.Memory.{FilesInMemory, held, load_fails, after_call, after_load, store_fails, with_content, after_storing, after_refusing};

use crate::call_log::{CallLog, CallMade};
use crate::failing::is_listed;
use crate::files::has_failed;
use crate::{FileAction, FileError, Files, MAX_FILE_LENGTH, NoMemory};
use std::alloc::Global;
use std::marker::Model;

/// Files in memory, whose calls fail where they are told to.
#[derive(Drop)]
pub struct MemFiles {
    names: Vec<String>,
    contents: Vec<Vec<u8>>,
    fails: Vec<u64>,
    calls: u64,
    faults: u64,
    log: CallLog,
}

impl Model for MemFiles {
    ghost Value = { FilesInMemory };

    ghost view = { λ files. record {
      names = map string_bytes files.names.items;
      contents = map vec_items files.contents.items;
      fails = files.fails.items;
      calls = files.calls;
      faults = files.faults;
      asked = files.log.calls;
    } };

    ghost invariant = { λ files. vec_len files.names ≡ vec_len files.contents };
}

impl MemFiles {
    /// Files of these names with these contents. `fails` lists the numbers, from 1, of the calls
    /// that are to fail. Of two equal names the first counts.
    pub fn new(names: Vec<String>, contents: Vec<Vec<u8>>, fails: Vec<u64>) -> MemFiles
        requires { vec_len names ≡ vec_len contents }
        ensures names { result.names ≡ map string_bytes names.items }
        ensures contents { result.contents ≡ map vec_items contents.items }
        ensures fails { result.fails ≡ fails.items }
        ensures calls { result.calls ≡ 0 }
        ensures faults { result.faults ≡ 0 }
        ensures asked { result.asked ≡ [] }
    {
        MemFiles {
            names,
            contents,
            fails,
            calls: 0,
            faults: 0,
            log: CallLog::new(),
        }
    }

    /// It tells what each name holds.
    pub fn tells_what_it_holds()
        ensures { (files : FilesInMemory) → ⟦<MemFiles as Files>⟧.holds files ≡ Some (held files) }
    {}

    /// Its count of faults is the count of its calls that failed, and it tells the calls that it
    /// was asked for.
    pub fn counts_its_faults()
        ensures faults { (files : FilesInMemory) →
            ⟦<MemFiles as Files>⟧.faults files ≡ files.faults }
        ensures asked { (files : FilesInMemory) →
            ⟦<MemFiles as Files>⟧.asked files ≡ files.asked }
    {}

    /// What a name holds. It is no call that is counted.
    pub fn get(&self, name: &str) -> Option<&[u8]>
        ensures { option_copied result ≡ held self.entry.now name.entry.now }
    {
        let place = place_of(&self.names, name)?;
        let content = self.contents.get(place)?;
        Some(content.as_slice())
    }

    /// Counts a call, and one that failed as such too, and keeps it.
    fn note(&mut self, action: FileAction, name: &str, failed: bool)
        ensures after { self.new
            ≡ after_call self.old (record { action = action; name = name.now; failed = failed }) }
        ensures never_falls { self.old.faults ≤ self.new.faults }
    {
        self.calls = self.calls.saturating_add(1);
        if failed {
            self.faults = self.faults.saturating_add(1);
        }
        self.log = self.log.and(&CallMade {
            action,
            name,
            failed,
        });
    }

    /// What the next call answers, where it is a load of the name.
    fn content_of(&self, alloc: Global, name: &str) -> Result<Vec<u8>, FileError>
        ensures content { IsAnswerFor (held self.now name.now) result }
        ensures length { IfOk result (λ bytes. vec_len bytes ≤ most_file_bytes) }
        ensures failed { has_failed result ≡ load_fails self.now name.now }
    {
        match self.get(name) {
            Some(content) if content.len() > MAX_FILE_LENGTH => Err(FileError::TooLong),
            _ if is_listed(&self.fails, self.calls) => Err(FileError::Failed),
            Some(content) => Ok(Vec::from_slice(alloc, content)?),
            None => Err(FileError::Missing),
        }
    }

    /// What the next call answers, where it is a store under the name: at `Ok` a copy of the bytes
    /// was put there.
    fn put_copy(&mut self, alloc: Global, name: &str, bytes: &[u8]) -> Result<(), FileError>
        ensures length { IsErrOf result FileError.TooLong ↔ most_file_bytes < length bytes.now }
        ensures never_missing { ¬ IsErrOf result FileError.Missing }
        ensures failed { has_failed result ≡ store_fails self.old bytes.now }
        ensures stored { OnOk result (held self.new name.now ≡ Some bytes.now) }
        ensures others { (other : List ℕ) → other ≢ name.now →
            held self.new other ≡ held self.old other }
        ensures ok { OnOk result (self.new ≡ with_content self.old name.now bytes.now) }
        ensures err { OnErr result (self.new ≡ self.old) }
    {
        if bytes.len() > MAX_FILE_LENGTH {
            return Err(FileError::TooLong);
        }
        if is_listed(&self.fails, self.calls) {
            return Err(FileError::Failed);
        }
        let content = Vec::from_slice(alloc, bytes)?;
        self.put(alloc, name, content)?;
        Ok(())
    }

    /// Puts the content under the name: in place of the first content of the name, or behind all
    /// others.
    fn put(&mut self, alloc: Global, name: &str, content: Vec<u8>) -> Result<(), NoMemory>
        ensures ok { OnOk result (self.new ≡ with_content self.old name.now content.items) }
        ensures err { OnErr result (self.new ≡ self.old) }
    {
        match place_of(&self.names, name) {
            Some(place) => {
                self.contents[place] = content;
                Ok(())
            }
            None => self.add(alloc, name, content),
        }
    }

    /// Puts a name with its content behind all others.
    fn add(&mut self, alloc: Global, name: &str, content: Vec<u8>) -> Result<(), NoMemory>
        ensures ok { OnOk result (self.new ≡ record self.old {
          names = self.old.names ++ name.now ∷ [];
          contents = self.old.contents ++ content.items ∷ [];
        }) }
        ensures err { OnErr result (self.new ≡ self.old) }
    {
        let name = String::from_str(alloc, name)?;
        self.names.try_reserve(1)?;
        self.contents.try_reserve(1)?;
        let (Ok(()), Ok(())) = (self.names.push(name), self.contents.push(content)) else {
            unreachable!()
        };
        Ok(())
    }
}

impl Files for MemFiles {
    ghost holds = { λ files. Some (held files) };

    ghost faults = { λ files. files.faults };

    ghost asked = { λ files. files.asked };

    fn load(&mut self, alloc: Global, name: &str) -> Result<Vec<u8>, FileError>
        ensures content { IsAnswerFor (held self.old name.now) result }
        ensures length { IfOk result (λ bytes. vec_len bytes ≤ most_file_bytes) }
        ensures same { held self.new ≡ held self.old }
        ensures cause { IsErrOf result FileError.Failed → Rose self.old.faults self.new.faults }
        ensures missing { IsErrOf result FileError.Missing → self.new.faults ≡ self.old.faults }
        ensures too_long { IsErrOf result FileError.TooLong → self.new.faults ≡ self.old.faults }
        ensures never_falls { self.old.faults ≤ self.new.faults }
        ensures asked { self.new.asked ≡ self.old.asked ++ load_call name.now result ∷ [] }
        ensures failed { has_failed result ≡ load_fails self.old name.now }
        ensures after { self.new ≡ after_load self.old name.now }
    {
        let answer = self.content_of(alloc, name);
        self.note(FileAction::Load, name, has_failed(&answer));
        answer
    }

    fn store(&mut self, alloc: Global, name: &str, bytes: &[u8]) -> Result<(), FileError>
        ensures stored { OnOk result (held self.new name.now ≡ Some bytes.now) }
        ensures others { (other : List ℕ) → other ≢ name.now →
            held self.new other ≡ held self.old other }
        ensures length { IsErrOf result FileError.TooLong ↔ most_file_bytes < length bytes.now }
        ensures cause { IsErrOf result FileError.Failed → Rose self.old.faults self.new.faults }
        ensures never_missing { ¬ IsErrOf result FileError.Missing }
        ensures too_long { IsErrOf result FileError.TooLong → self.new.faults ≡ self.old.faults }
        ensures never_falls { self.old.faults ≤ self.new.faults }
        ensures asked { self.new.asked ≡ self.old.asked ++ store_call name.now result ∷ [] }
        ensures failed { has_failed result ≡ store_fails self.old bytes.now }
        ensures after_ok { OnOk result (self.new ≡ after_storing self.old name.now bytes.now) }
        ensures after_err { OnErr result (self.new ≡ after_refusing self.old name.now bytes.now) }
    {
        let answer = self.put_copy(alloc, name, bytes);
        self.note(FileAction::Store, name, has_failed(&answer));
        answer
    }
}

/// The first place of a name.
fn place_of(names: &[String], name: &str) -> Option<usize>
    ensures { result ≡ position (λ known. bytes_eq name.now (string_bytes known)) names.now }
{
    names.iter().position(|known| name == known.as_str())
}
